//! The steps of the parser: what the next token makes of what is open.

ghost use Rattle.std.specs.Prelude.{◌≡◌, ℕ, ◌+◌, ◌≤◌, List, [], ◌∷◌, ◌++◌, Bool, true, Option, Some, None, bytes_eq, IfOk};
ghost use Rattle.formula_parse.specs.Tree.{Tree, attribute, parentheses, call, list, lookup, height_of, from_list, heights, keys_from, key_heights};
ghost use Rattle.formula_parse.specs.Machine.{after, kept, opened, close_step, close_list_step, comma_step};
ghost use Rattle.formula_parse.specs.Operands.{rule_name, point_step, word_operand, sign_operand, name_operand, operand_step, close_empty, close_empty_list, first_step};
ghost use Rattle.formula_parse.specs.Steps.{word_after, sign_after, after_step, compared_step, is_step, name_step, table_step, first_key_step, next_key_step, key_step, not_step, dot_step, name_point_step, lookup_step, subject_step, subject_point_step, user_point_step};
ghost use Rattle.formula_parse.specs.Runs.{step, finish};
ghost use Rattle.formula_parse.specs.Grammar.{all_word, lookup_word};
ghost use Rattle.formula_lex.specs.Lexed.{Gives};
ghost use Rattle.formula_parse.specs.RuleGrammar.{asked};
ghost use Rattle.formula_parse.specs.declared.frame.Frame.{Frame};
ghost use Rattle.formula_parse.specs.declared.frame.Frame.TheVariants as frame;

use crate::fault::refused;
use crate::frame::{Frame, Mode, Stack};
use crate::lexeme::{Keyword, Lexeme, is_id};
use crate::open_keys::OpenKeys;
use crate::operator::{BinaryOp, Constant, Dialect, LookupKind, PrefixOp};
use crate::reduce::{
    infix, kept, open_condition, open_left, open_otherwise, open_prefix, operand_of, reduce,
};
use crate::rule::{RuleAtom, Subject};
use crate::tree::{ArgumentList, Formula, LookupKey, LookupKeyList, Node};
use cell_types::{CellText, Name};
use formula_lex::{Sign, Stop};
use std::alloc::{AllocError, Global};

// A formula in parentheses.
fn parentheses(alloc: Global, tree: Formula) -> Result<Mode, Stop>
    ensures { (fs : List Frame) → Gives (λ m. (fs, m)) result (after fs (parentheses tree)) }
{
    let below = tree.height();
    operand_of(alloc, Node::Parentheses(tree), below)
}

// A call of these arguments and this last one.
fn call(alloc: Global, name: Name, items: ArgumentList, last: Formula) -> Result<Mode, Stop>
    ensures { (fs : List Frame) → Gives (λ m. (fs, m)) result
        (after fs (call name (from_list (items ++ last ∷ [])))) }
{
    let items = items.with(last)?;
    let below = items.height();
    operand_of(alloc, Node::Call(name, items), below)
}

// A list of these items and this last one.
fn list(alloc: Global, items: ArgumentList, last: Formula) -> Result<Mode, Stop>
    ensures { (fs : List Frame) → Gives (λ m. (fs, m)) result
        (after fs (list (from_list (items ++ last ∷ [])))) }
{
    let items = items.with(last)?;
    let below = items.height();
    operand_of(alloc, Node::List(items), below)
}

// A lookup by these keys and this last one.
fn lookup(
    alloc: Global,
    kind: LookupKind,
    table: Name,
    keys: OpenKeys,
    last: LookupKey,
) -> Result<Mode, Stop>
    ensures { (fs : List Frame) → Gives (λ m. (fs, m)) result
        (after fs (lookup kind table (keys_from (keys ++ (last.name, last.value) ∷ [])))) }
{
    let mut keys = keys.into_keys();
    keys.push(last)?;
    let below = keys.height();
    operand_of(alloc, Node::Lookup(kind, table, keys), below)
}

// `)` behind a formula that nothing else closes.
fn close(alloc: Global, frames: &mut Stack, tree: Formula) -> Result<Mode, Stop>
    ensures { Gives (λ m. (frames.new, m)) result (close_step frames.old tree) }
{
    match frames.pop() {
        Some(Frame::Parentheses) => parentheses(alloc, tree),
        Some(Frame::Arguments(name, items)) => call(alloc, name, items, tree),
        Some(Frame::Key(kind, table, keys, name)) => {
            lookup(alloc, kind, table, keys, LookupKey { name, value: tree })
        }
        other => refused((other, tree)),
    }
}

// `]` behind a formula that nothing else closes.
fn close_list(alloc: Global, frames: &mut Stack, tree: Formula) -> Result<Mode, Stop>
    ensures { Gives (λ m. (frames.new, m)) result (close_list_step frames.old tree) }
{
    match frames.pop() {
        Some(Frame::Items(items)) => list(alloc, items, tree),
        other => refused((other, tree)),
    }
}

// A formula behind which a further argument is wanted.
fn next_argument(
    frames: &mut Stack,
    name: Name,
    items: ArgumentList,
    tree: Formula,
) -> Result<Mode, Stop>
    ensures { Gives (λ m. (frames.new, m)) result
        (opened (frame.Arguments name (items ++ tree ∷ [])) frames.old) }
{
    let items = items.with(tree)?;
    frames.open(Frame::Arguments(name, items))
}

// `,` behind a formula that nothing else closes.
fn comma(frames: &mut Stack, tree: Formula) -> Result<Mode, Stop>
    ensures { Gives (λ m. (frames.new, m)) result (comma_step frames.old tree) }
{
    match frames.pop() {
        Some(Frame::Items(items)) => frames.open(Frame::Items(items.with(tree)?)),
        Some(Frame::Arguments(name, items)) => next_argument(frames, name, items, tree),
        Some(Frame::Key(kind, table, keys, name)) => {
            let keys = keys.with(LookupKey { name, value: tree })?;
            Ok(Mode::NextKey(kind, table, keys))
        }
        other => refused((other, tree)),
    }
}

// A keyword where an operand is wanted.
fn word_operand(
    alloc: Global,
    dialect: Dialect,
    frames: &mut Stack,
    keyword: Keyword,
) -> Result<Mode, Stop>
    ensures { Gives (λ m. (frames.new, m)) result (word_operand dialect keyword frames.old) }
{
    match keyword {
        Keyword::Not => open_prefix(PrefixOp::Not, frames),
        Keyword::True => operand_of(alloc, Node::Constant(Constant::True), 0),
        Keyword::False => { operand_of(alloc, Node::Constant(Constant::False), 0) }
        Keyword::None => { operand_of(alloc, Node::Constant(Constant::None), 0) }
        Keyword::Rec => match dialect {
            Dialect::Formula => operand_of(alloc, Node::Constant(Constant::Rec), 0),
            Dialect::Rule => Ok(Mode::AfterSubject(Subject::Rec)),
        },
        _ => Err(Stop::Bad),
    }
}

// A sign where an operand is wanted.
fn sign_operand(alloc: Global, frames: &mut Stack, sign: Sign) -> Result<Mode, Stop>
    ensures { Gives (λ m. (frames.new, m)) result (sign_operand sign frames.old) }
{
    match sign {
        Sign::Minus => open_prefix(PrefixOp::Negate, frames),
        Sign::Open => { frames.open(Frame::Parentheses) }
        Sign::OpenList => {
            frames.push(Frame::Items(ArgumentList::new(alloc)))?;
            Ok(Mode::FirstItem)
        }
        _ => Err(Stop::Bad),
    }
}

// A name where an operand of a rule is wanted.
#[tactic(auto, unfolding(crate::specs::RuleGrammar::owner_word, crate::specs::RuleGrammar::editor_word, crate::specs::RuleGrammar::viewer_word, crate::specs::RuleGrammar::user_word, crate::specs::RuleGrammar::new_rec_word))]
fn rule_name(alloc: Global, frames: &mut Stack, word: &str) -> Result<Mode, Stop>
    ensures { Gives (λ m. (frames.new, m)) result (rule_name word.now frames.old) }
{
    if word == "OWNER" {
        return operand_of(alloc, Node::Rule(RuleAtom::Owner), 0);
    }
    if word == "EDITOR" {
        return operand_of(alloc, Node::Rule(RuleAtom::Editor), 0);
    }
    if word == "VIEWER" {
        return operand_of(alloc, Node::Rule(RuleAtom::Viewer), 0);
    }
    if word == "user" {
        return Ok(Mode::AfterSubject(Subject::User));
    }
    if word == "newRec" {
        return Ok(Mode::AfterSubject(Subject::NewRec));
    }
    Err(Stop::Bad)
}

// A name where an operand is wanted.
fn name_operand(
    alloc: Global,
    dialect: Dialect,
    frames: &mut Stack,
    name: Name,
) -> Result<Mode, Stop>
    ensures { Gives (λ m. (frames.new, m)) result (name_operand dialect name frames.old) }
{
    match dialect {
        Dialect::Formula => {
            if is_id(name.as_str()) {
                return Err(Stop::Bad);
            }
            Ok(Mode::AfterName(name))
        }
        Dialect::Rule => rule_name(alloc, frames, name.as_str()),
    }
}

// A token where an operand is wanted.
fn operand(
    alloc: Global,
    dialect: Dialect,
    frames: &mut Stack,
    lexeme: Lexeme,
) -> Result<Mode, Stop>
    ensures { Gives (λ m. (frames.new, m)) result (operand_step dialect lexeme frames.old) }
{
    match lexeme {
        Lexeme::Number(n) => operand_of(alloc, Node::Number(n), 0),
        Lexeme::Text(text) => operand_of(alloc, Node::Text(text), 0),
        Lexeme::Dollar(name) => match dialect {
            Dialect::Formula => operand_of(alloc, Node::Dollar(name), 0),
            Dialect::Rule => Err(Stop::Bad),
        },
        Lexeme::Name(name) => name_operand(alloc, dialect, frames, name),
        Lexeme::Keyword(keyword) => word_operand(alloc, dialect, frames, keyword),
        Lexeme::Sign(sign) => sign_operand(alloc, frames, sign),
    }
}

// The end of arguments, where there are none.
fn close_empty(alloc: Global, frames: &mut Stack) -> Result<Mode, Stop>
    ensures { Gives (λ m. (frames.new, m)) result (close_empty frames.old) }
{
    match frames.pop() {
        Some(Frame::Arguments(name, items)) => {
            if items.is_empty() {
                return operand_of(alloc, Node::Call(name, items), 0);
            }
            refused((name, items))
        }
        other => refused(other),
    }
}

// The end of a list, where it has no items.
fn close_empty_list(alloc: Global, frames: &mut Stack) -> Result<Mode, Stop>
    ensures { Gives (λ m. (frames.new, m)) result (close_empty_list frames.old) }
{
    match frames.pop() {
        Some(Frame::Items(items)) => {
            if items.is_empty() {
                return operand_of(alloc, Node::List(items), 0);
            }
            Err(Stop::Bad)
        }
        other => refused(other),
    }
}

// The first item of a list or of arguments, or their end.
fn first_item(
    alloc: Global,
    dialect: Dialect,
    frames: &mut Stack,
    lexeme: Lexeme,
) -> Result<Mode, Stop>
    ensures { Gives (λ m. (frames.new, m)) result (first_step dialect lexeme frames.old) }
{
    match lexeme {
        Lexeme::Sign(Sign::Close) => close_empty(alloc, frames),
        Lexeme::Sign(Sign::CloseList) => close_empty_list(alloc, frames),
        _ => operand(alloc, dialect, frames, lexeme),
    }
}

// A keyword behind a formula.
fn word_after(
    alloc: Global,
    dialect: Dialect,
    frames: &mut Stack,
    tree: Formula,
    keyword: Keyword,
) -> Result<Mode, Stop>
    ensures { Gives (λ m. (frames.new, m)) result (word_after dialect keyword frames.old tree) }
{
    match keyword {
        Keyword::Or => infix(alloc, dialect, BinaryOp::Or, frames, tree),
        Keyword::And => infix(alloc, dialect, BinaryOp::And, frames, tree),
        Keyword::In => infix(alloc, dialect, BinaryOp::In, frames, tree),
        Keyword::Not => Ok(Mode::AfterNot(tree)),
        Keyword::Is => Ok(Mode::AfterIs(tree)),
        Keyword::If => match dialect {
            Dialect::Formula => open_condition(alloc, frames, tree),
            Dialect::Rule => Err(Stop::Bad),
        },
        Keyword::Else => {
            let tree = reduce(alloc, 0, frames, tree)?;
            open_otherwise(frames, tree)
        }
        _ => Err(Stop::Bad),
    }
}

// A point behind a formula.
fn point(alloc: Global, dialect: Dialect, tree: Formula) -> Result<Mode, Stop>
    ensures { (fs : List Frame) → Gives (λ m. (fs, m)) result (point_step dialect fs tree) }
{
    match dialect {
        Dialect::Formula => Ok(Mode::AfterDot(tree)),
        Dialect::Rule => match tree.node() {
            Node::Rule(RuleAtom::User(name)) => Ok(Mode::UserPoint(copy(alloc, name)?)),
            _ => Err(Stop::Bad),
        },
    }
}

// A sign behind a formula.
fn sign_after(
    alloc: Global,
    dialect: Dialect,
    frames: &mut Stack,
    tree: Formula,
    sign: Sign,
) -> Result<Mode, Stop>
    ensures { Gives (λ m. (frames.new, m)) result (sign_after dialect sign frames.old tree) }
{
    match sign {
        Sign::Equal => infix(alloc, dialect, BinaryOp::Equal, frames, tree),
        Sign::NotEqual => infix(alloc, dialect, BinaryOp::NotEqual, frames, tree),
        Sign::Less => infix(alloc, dialect, BinaryOp::Less, frames, tree),
        Sign::AtMost => infix(alloc, dialect, BinaryOp::AtMost, frames, tree),
        Sign::More => infix(alloc, dialect, BinaryOp::More, frames, tree),
        Sign::AtLeast => infix(alloc, dialect, BinaryOp::AtLeast, frames, tree),
        Sign::Plus => infix(alloc, dialect, BinaryOp::Add, frames, tree),
        Sign::Minus => infix(alloc, dialect, BinaryOp::Subtract, frames, tree),
        Sign::Star => infix(alloc, dialect, BinaryOp::Multiply, frames, tree),
        Sign::DoubleSlash => infix(alloc, dialect, BinaryOp::Divide, frames, tree),
        Sign::Percent => infix(alloc, dialect, BinaryOp::Remainder, frames, tree),
        Sign::Point => point(alloc, dialect, tree),
        Sign::Close => {
            let tree = reduce(alloc, 0, frames, tree)?;
            close(alloc, frames, tree)
        }
        Sign::CloseList => {
            let tree = reduce(alloc, 0, frames, tree)?;
            close_list(alloc, frames, tree)
        }
        Sign::Comma => {
            let tree = reduce(alloc, 0, frames, tree)?;
            comma(frames, tree)
        }
        _ => Err(Stop::Bad),
    }
}

// A token behind a formula.
fn after(
    alloc: Global,
    dialect: Dialect,
    frames: &mut Stack,
    tree: Formula,
    lexeme: Lexeme,
) -> Result<Mode, Stop>
    ensures { Gives (λ m. (frames.new, m)) result (after_step dialect lexeme frames.old tree) }
{
    match lexeme {
        Lexeme::Keyword(keyword) => word_after(alloc, dialect, frames, tree, keyword),
        Lexeme::Sign(sign) => sign_after(alloc, dialect, frames, tree, sign),
        _ => Err(Stop::Bad),
    }
}

// A token that begins what a formula is compared with by `is`.
fn operand_behind_is(
    alloc: Global,
    dialect: Dialect,
    frames: &mut Stack,
    tree: Formula,
    lexeme: Lexeme,
) -> Result<Mode, Stop>
    ensures { Gives (λ m. (frames.new, m)) result (compared_step dialect lexeme frames.old tree) }
{
    open_left(alloc, dialect, BinaryOp::Is, frames, tree)?;
    operand(alloc, dialect, frames, lexeme)
}

// A token behind a formula and `is`.
fn after_is(
    alloc: Global,
    dialect: Dialect,
    frames: &mut Stack,
    tree: Formula,
    lexeme: Lexeme,
) -> Result<Mode, Stop>
    ensures { Gives (λ m. (frames.new, m)) result (is_step dialect lexeme frames.old tree) }
{
    match lexeme {
        Lexeme::Keyword(Keyword::Not) => infix(alloc, dialect, BinaryOp::IsNot, frames, tree),
        _ => operand_behind_is(alloc, dialect, frames, tree, lexeme),
    }
}

// A copy of a name.
fn copy(alloc: Global, name: &Name) -> Result<Name, AllocError>
    ensures { IfOk result (λ made. made ≡ name.now) }
{
    let text = CellText::copy_of(alloc, name.as_str())?;
    Ok(Name::new(text))
}

// What rule formulas ask for.
fn asked(subject: Subject, name: Name) -> RuleAtom
    ensures { result ≡ asked subject name }
{
    match subject {
        Subject::User => RuleAtom::User(name),
        Subject::Rec => RuleAtom::Rec(name),
        Subject::NewRec => RuleAtom::NewRec(name),
    }
}

// The attribute of a formula.
fn attribute(alloc: Global, tree: Formula, name: Name) -> Result<Formula, Stop>
    ensures { Gives (λ f. f) result (kept (attribute tree name)) }
{
    let below = tree.height();
    kept(alloc, Node::Attribute(tree, name), below)
}

// A token behind a name.
fn after_name(alloc: Global, frames: &mut Stack, name: Name, lexeme: Lexeme) -> Result<Mode, Stop>
    ensures { Gives (λ m. (frames.new, m)) result (name_step lexeme frames.old name) }
{
    match lexeme {
        Lexeme::Sign(Sign::Open) => {
            frames.push(Frame::Arguments(name, ArgumentList::new(alloc)))?;
            Ok(Mode::FirstItem)
        }
        Lexeme::Sign(Sign::Point) => Ok(Mode::AfterPoint(name)),
        other => refused((other, name)),
    }
}

// A word behind a table's name and a point.
#[tactic(auto, unfolding(crate::specs::Grammar::all_word, crate::specs::Grammar::lookup_word))]
fn after_point(alloc: Global, frames: &mut Stack, table: Name, word: &str) -> Result<Mode, Stop>
    ensures { Gives (λ m. (frames.new, m)) result (table_step word.now frames.old table) }
{
    if word == "all" {
        return operand_of(alloc, Node::All(table), 0);
    }
    if word == "lookupRecords" {
        return Ok(Mode::AfterLookup(LookupKind::Records, table));
    }
    if word == "lookupOne" {
        return Ok(Mode::AfterLookup(LookupKind::One, table));
    }
    Err(Stop::Bad)
}

// A token where the first key is wanted, or the end of the keys.
fn first_key(
    alloc: Global,
    frames: &mut Stack,
    kind: LookupKind,
    table: Name,
    lexeme: Lexeme,
) -> Result<Mode, Stop>
    ensures { Gives (λ m. (frames.new, m)) result (first_key_step lexeme frames.old kind table) }
{
    match lexeme {
        Lexeme::Sign(Sign::Close) => {
            let keys = LookupKeyList::new(alloc);
            operand_of(alloc, Node::Lookup(kind, table, keys), 0)
        }
        Lexeme::Name(name) => Ok(Mode::AfterKey(kind, table, OpenKeys::new(alloc), name)),
        other => refused((other, table)),
    }
}

// A token where a further key is wanted.
fn next_key(
    frames: &mut Stack,
    kind: LookupKind,
    table: Name,
    keys: OpenKeys,
    lexeme: Lexeme,
) -> Result<Mode, Stop>
    ensures { Gives (λ m. (frames.new, m)) result
        (next_key_step lexeme frames.old kind table keys) }
{
    match lexeme {
        Lexeme::Name(name) => {
            if keys.has(&name) {
                return refused((table, keys, name));
            }
            Ok(Mode::AfterKey(kind, table, keys, name))
        }
        other => refused((other, table, keys)),
    }
}

// A token behind the name of a key.
fn after_key(
    frames: &mut Stack,
    kind: LookupKind,
    table: Name,
    keys: OpenKeys,
    name: Name,
    lexeme: Lexeme,
) -> Result<Mode, Stop>
    ensures { Gives (λ m. (frames.new, m)) result
        (key_step lexeme frames.old kind table keys name) }
{
    match lexeme {
        Lexeme::Sign(Sign::Assign) => { frames.open(Frame::Key(kind, table, keys, name)) }
        other => refused((other, table, keys, name)),
    }
}

// A `not` behind an operand has to go on with `in`.
fn after_not(
    alloc: Global,
    dialect: Dialect,
    frames: &mut Stack,
    tree: Formula,
    lexeme: Lexeme,
) -> Result<Mode, Stop>
    ensures { Gives (λ m. (frames.new, m)) result (not_step dialect lexeme frames.old tree) }
{
    match lexeme {
        Lexeme::Keyword(Keyword::In) => infix(alloc, dialect, BinaryOp::NotIn, frames, tree),
        other => refused((other, tree)),
    }
}

fn after_dot(alloc: Global, tree: Formula, lexeme: Lexeme) -> Result<Mode, Stop>
    ensures { (fs : List Frame) → Gives (λ m. (fs, m)) result (dot_step lexeme fs tree) }
{
    match lexeme {
        Lexeme::Name(name) => Ok(Mode::Operator(attribute(alloc, tree, name)?)),
        other => refused((other, tree)),
    }
}

// The point behind the name of a table.
fn after_table_point(
    alloc: Global,
    frames: &mut Stack,
    table: Name,
    lexeme: Lexeme,
) -> Result<Mode, Stop>
    ensures { Gives (λ m. (frames.new, m)) result (name_point_step lexeme frames.old table) }
{
    match lexeme {
        Lexeme::Name(name) => after_point(alloc, frames, table, name.as_str()),
        other => refused((other, table)),
    }
}

fn after_lookup(kind: LookupKind, table: Name, lexeme: Lexeme) -> Result<Mode, Stop>
    ensures { (fs : List Frame) → Gives (λ m. (fs, m)) result (lookup_step lexeme fs kind table) }
{
    match lexeme {
        Lexeme::Sign(Sign::Open) => Ok(Mode::FirstKey(kind, table)),
        other => refused((other, table)),
    }
}

fn after_subject(subject: Subject, lexeme: Lexeme) -> Result<Mode, Stop>
    ensures { (fs : List Frame) → Gives (λ m. (fs, m)) result (subject_step lexeme fs subject) }
{
    match lexeme {
        Lexeme::Sign(Sign::Point) => Ok(Mode::SubjectPoint(subject)),
        other => refused(other),
    }
}

fn after_subject_point(alloc: Global, subject: Subject, lexeme: Lexeme) -> Result<Mode, Stop>
    ensures { (fs : List Frame) → Gives (λ m. (fs, m)) result
        (subject_point_step lexeme fs subject) }
{
    match lexeme {
        Lexeme::Name(name) => {
            let atom = Node::Rule(asked(subject, name));
            operand_of(alloc, atom, 0)
        }
        other => refused(other),
    }
}

fn after_user_point(alloc: Global, first: Name, lexeme: Lexeme) -> Result<Mode, Stop>
    ensures { (fs : List Frame) → Gives (λ m. (fs, m)) result (user_point_step lexeme fs first) }
{
    match lexeme {
        Lexeme::Name(name) => {
            let atom = Node::Rule(RuleAtom::UserAttribute(first, name));
            operand_of(alloc, atom, 0)
        }
        other => refused((other, first)),
    }
}

/// What the next token makes of what is open.
#[tactic(auto, unfolding(crate::specs::Runs::step))]
pub(crate) fn step(
    alloc: Global,
    dialect: Dialect,
    frames: &mut Stack,
    mode: Mode,
    lexeme: Lexeme,
) -> Result<Mode, Stop>
    ensures { Gives (λ m. (frames.new, m)) result (step dialect lexeme frames.old mode) }
{
    match mode {
        Mode::Operand => operand(alloc, dialect, frames, lexeme),
        Mode::FirstItem => first_item(alloc, dialect, frames, lexeme),
        Mode::Operator(tree) => after(alloc, dialect, frames, tree, lexeme),
        Mode::AfterNot(tree) => after_not(alloc, dialect, frames, tree, lexeme),
        Mode::AfterIs(tree) => after_is(alloc, dialect, frames, tree, lexeme),
        Mode::AfterDot(tree) => after_dot(alloc, tree, lexeme),
        Mode::AfterName(name) => after_name(alloc, frames, name, lexeme),
        Mode::AfterPoint(table) => after_table_point(alloc, frames, table, lexeme),
        Mode::AfterLookup(kind, table) => after_lookup(kind, table, lexeme),
        Mode::FirstKey(kind, table) => first_key(alloc, frames, kind, table, lexeme),
        Mode::NextKey(kind, table, keys) => next_key(frames, kind, table, keys, lexeme),
        Mode::AfterKey(kind, table, keys, name) => {
            after_key(frames, kind, table, keys, name, lexeme)
        }
        Mode::AfterSubject(subject) => after_subject(subject, lexeme),
        Mode::SubjectPoint(subject) => after_subject_point(alloc, subject, lexeme),
        Mode::UserPoint(first) => after_user_point(alloc, first, lexeme),
    }
}

/// What the end of the tokens makes of what is open.
#[tactic(auto, unfolding(crate::specs::Runs::finish))]
pub(crate) fn finish(alloc: Global, frames: &mut Stack, mode: Mode) -> Result<Formula, Stop>
    ensures { Gives (λ t. t) result (finish frames.old mode) }
{
    match mode {
        Mode::Operator(tree) => {
            let tree = reduce(alloc, 0, frames, tree)?;
            if frames.is_empty() {
                Ok(tree)
            } else {
                Err(Stop::Bad)
            }
        }
        _ => Err(Stop::Bad),
    }
}
