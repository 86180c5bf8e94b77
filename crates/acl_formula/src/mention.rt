//! What the formula of a rule asks for.

ghost use Rattle.std.specs.Prelude.{◌≡◌, Some, IfOk, OnOk};
ghost use Rattle.std.specs.List.{list_any};
ghost use Rattle.formula_parse.specs.Tree.{from_list};
ghost use Rattle.acl_formula.specs.Mentions.{atom_mention, as_list, same_mention, with_mention, gathered, all_mentions, items_mention, is_about_row};

use cell_types::{Name, Sequence};
use formula_parse::{ArgumentList, Formula, Node, RuleAtom};
use std::alloc::AllocError;

/// What a rule's formula asks for: a column of the row before or after the change, or its `id`, or
/// a field or attribute of the user.
#[derive(Clone, Debug, Drop)]
pub enum Mention {
    /// `rec.NAME`
    Rec(Name),
    /// `newRec.NAME`
    NewRec(Name),
    /// `user.NAME`, with or without a second name.
    User(Name),
}

/// What a formula asks for, in the order of its text, each once.
pub type MentionList = Sequence<Mention>;

impl Mention {
    /// Whether it asks about a row, and not about the user.
    pub fn is_about_row(&self) -> bool
        ensures { result ≡ is_about_row self.now }
    {
        match self {
            Mention::Rec(_) | Mention::NewRec(_) => true,
            Mention::User(_) => false,
        }
    }
}

fn same_mention(left: &Mention, right: &Mention) -> bool
    ensures { result ≡ same_mention left.now right.now }
{
    match (left, right) {
        (Mention::Rec(left), Mention::Rec(right)) => left.as_str() == right.as_str(),
        (Mention::NewRec(left), Mention::NewRec(right)) => left.as_str() == right.as_str(),
        (Mention::User(left), Mention::User(right)) => left.as_str() == right.as_str(),
        _ => false,
    }
}

fn atom_mention(atom: &RuleAtom) -> Result<Option<Mention>, AllocError>
    ensures { IfOk result (λ o. o ≡ atom_mention atom.now) }
{
    Ok(match atom {
        RuleAtom::User(name) | RuleAtom::UserAttribute(name, _) => {
            Some(Mention::User(name.clone()?))
        }
        RuleAtom::Rec(name) => Some(Mention::Rec(name.clone()?)),
        RuleAtom::NewRec(name) => Some(Mention::NewRec(name.clone()?)),
        RuleAtom::Owner | RuleAtom::Editor | RuleAtom::Viewer => None,
    })
}

fn is_mentioned(mentions: &[Mention], mention: &Mention) -> bool
    ensures { result ≡ list_any (λ m. same_mention m mention.now) mentions.now }
{
    mentions.iter().any(|other| same_mention(other, mention))
}

// Adds a mention that is new.
fn note(mentions: &mut MentionList, mention: Mention) -> Result<(), AllocError>
    ensures { OnOk result (mentions.new ≡ with_mention mentions.old mention) }
{
    if !is_mentioned(mentions.as_slice(), &mention) {
        mentions.push(mention)?;
    }
    Ok(())
}

fn note_atom(mentions: &mut MentionList, atom: &RuleAtom) -> Result<(), AllocError>
    ensures { OnOk result (mentions.new ≡ gathered mentions.old (as_list (atom_mention atom.now))) }
{
    match atom_mention(atom)? {
        Some(mention) => note(mentions, mention),
        None => Ok(()),
    }
}

// Adds what a formula asks for and was not there.
#[tactic(auto, using(crate::proofs::MentionLemmas::gathered_append))]
#[cycle(mentions)]
pub(crate) fn note_formula(mentions: &mut MentionList, formula: &Formula) -> Result<(), AllocError>
    ensures { OnOk result (mentions.new ≡ gathered mentions.old (all_mentions formula.now)) }
{
    match formula.node() {
        Node::Binary(_, left, right) => {
            note_formula(mentions, left)?;
            note_formula(mentions, right)
        }
        Node::Prefix(_, inner) | Node::Parentheses(inner) => note_formula(mentions, inner),
        Node::List(items) => note_items(mentions, items),
        Node::Rule(atom) => note_atom(mentions, atom),
        _ => Ok(()),
    }
}

#[cycle(mentions)]
fn note_items(mentions: &mut MentionList, items: &ArgumentList) -> Result<(), AllocError>
    ensures { OnOk result
        (mentions.new ≡ gathered mentions.old (items_mention (from_list items.now))) }
{
    for item in items.as_slice() {
        note_formula(mentions, item)?;
    }
    Ok(())
}
