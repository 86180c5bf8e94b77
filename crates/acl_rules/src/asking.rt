//! A chain asked, part by part.

ghost use Rattle.std.specs.Prelude.{◌≡◌, [], ◌∷◌, Option, Some, None, option_map};
ghost use Rattle.acl_formula.specs.Asked.{asked_by};
ghost use Rattle.acl_rules.specs.Asking.{answer_at, first_at};
ghost use Rattle.acl_rules.specs.Chain.{chain_of, of_column, of_document, of_table, part_in, rules_of};
ghost use Rattle.acl_rules.specs.Decided.{decision_in, first_answer};

use crate::book::RuleBook;
use crate::decision::{Ctx, Decision, answer, built_in, decides};
use crate::resource::{Part, is_of};
use acl_formula::{Perm, RowReader, UserInfo};
use cell_types::Name;

// What the rule at a place says, where it is of the part.
fn answer_at<W: RowReader>(
    book: &RuleBook,
    place: usize,
    part: Part<'_>,
    perm: Perm,
    user: &UserInfo,
    rec: Option<&W>,
    new_rec: Option<&W>,
) -> Option<Decision>
    ensures { result ≡ answer_at (asked_by W.told user.now rec.entry new_rec.entry) perm
        (part_in part.entry) book.now place }
{
    let Some((rule, resource)) = book.rule_at(place) else {
        return None;
    };
    if is_of(part, resource) && decides(perm, rule, user, rec, new_rec) {
        return Some(answer(perm, rule));
    }
    None
}

// What the rules at these places say that are of the part.
fn part_answer<W: RowReader>(
    book: &RuleBook,
    places: &[usize],
    part: Part<'_>,
    perm: Perm,
    user: &UserInfo,
    rec: Option<&W>,
    new_rec: Option<&W>,
) -> Option<Decision>
    ensures { result ≡ first_at (asked_by W.told user.now rec.entry new_rec.entry) perm
        (part_in part.entry) book.now places.now }
{
    for place in places {
        if let Some(answer) = answer_at(book, *place, part, perm, user, rec, new_rec) {
            return Some(answer);
        }
    }
    None
}

// What the rules of a column say.
fn column_answer<W: RowReader>(
    book: &RuleBook,
    perm: Perm,
    table: &str,
    column: &str,
    user: &UserInfo,
    rec: Option<&W>,
    new_rec: Option<&W>,
) -> Option<Decision>
    ensures { result ≡ first_answer (asked_by W.told user.now rec.entry new_rec.entry) perm
        (rules_of (of_column table.now column.now) book.now) }
{
    let part = Part::Column(table, column);
    part_answer(book, book.places_on(table), part, perm, user, rec, new_rec)
}

// What the rules of a whole table say.
fn table_answer<W: RowReader>(
    book: &RuleBook,
    perm: Perm,
    table: &str,
    user: &UserInfo,
    rec: Option<&W>,
    new_rec: Option<&W>,
) -> Option<Decision>
    ensures { result ≡ first_answer (asked_by W.told user.now rec.entry new_rec.entry) perm
        (rules_of (of_table table.now) book.now) }
{
    let part = Part::Table(table);
    part_answer(book, book.places_on(table), part, perm, user, rec, new_rec)
}

// What the rules of the document say.
#[tactic(auto, using(crate::proofs::ChainLemmas::document_picked))]
fn document_answer<W: RowReader>(
    book: &RuleBook,
    perm: Perm,
    user: &UserInfo,
    rec: Option<&W>,
    new_rec: Option<&W>,
) -> Option<Decision>
    ensures { result ≡ first_answer (asked_by W.told user.now rec.entry new_rec.entry) perm
        (rules_of of_document book.now) }
{
    let places = book.places_on_document();
    part_answer(book, places, Part::Document, perm, user, rec, new_rec)
}

// What the document's chain decides.
fn document_decision<W: RowReader>(
    book: &RuleBook,
    perm: Perm,
    user: &UserInfo,
    rec: Option<&W>,
    new_rec: Option<&W>,
) -> Decision
    ensures { result ≡ decision_in (asked_by W.told user.now rec.entry new_rec.entry) perm
        (chain_of book.now None None) }
{
    match document_answer(book, perm, user, rec, new_rec) {
        Some(found) => found,
        None => built_in(&user.user, perm),
    }
}

// What a table's chain decides.
#[tactic(auto, using(crate::proofs::ChainLemmas::found_first, crate::proofs::ChainLemmas::none_first))]
fn table_decision<W: RowReader>(
    book: &RuleBook,
    perm: Perm,
    table: &str,
    user: &UserInfo,
    rec: Option<&W>,
    new_rec: Option<&W>,
) -> Decision
    ensures { result ≡ decision_in (asked_by W.told user.now rec.entry new_rec.entry) perm
        (chain_of book.now (Some table.now) None) }
{
    match table_answer(book, perm, table, user, rec, new_rec) {
        Some(found) => found,
        None => document_decision(book, perm, user, rec, new_rec),
    }
}

// What a column's chain decides.
#[tactic(auto, using(crate::proofs::ChainLemmas::found_first, crate::proofs::ChainLemmas::none_first))]
fn column_decision<W: RowReader>(
    book: &RuleBook,
    perm: Perm,
    table: &str,
    column: &str,
    user: &UserInfo,
    rec: Option<&W>,
    new_rec: Option<&W>,
) -> Decision
    ensures { result ≡ decision_in (asked_by W.told user.now rec.entry new_rec.entry) perm
        (chain_of book.now (Some table.now) (Some column.now)) }
{
    match column_answer(book, perm, table, column, user, rec, new_rec) {
        Some(found) => found,
        None => table_decision(book, perm, table, user, rec, new_rec),
    }
}

/// What is decided of a permission: by the chain of a column of a table, of a table, or of the
/// document where no table is named. `rec` and `new_rec` are the row before and after a change.
///
/// Memory: none. Cost: rules of other tables cost nothing but the search for the table's; a rule's
/// formula is asked where the rule is of the chain and mentions the permission.
/// Source: docs/FORMULAS.md, "Rules".
pub fn decide<W: RowReader>(
    ctx: &Ctx,
    perm: Perm,
    table: Option<&Name>,
    column: Option<&Name>,
    rec: Option<&W>,
    new_rec: Option<&W>,
) -> Decision
    ensures { result ≡ decision_in (asked_by W.told ctx.now.user rec.entry new_rec.entry) perm
        (chain_of ctx.now.book
        (option_map (λ t. t.now) table.entry) (option_map (λ c. c.now) column.entry)) }
{
    let (book, user) = (&ctx.book, &ctx.user);
    let Some(table) = table else {
        return document_decision(book, perm, user, rec, new_rec);
    };
    match column {
        Some(column) => {
            column_decision(
                book,
                perm,
                table.as_str(),
                column.as_str(),
                user,
                rec,
                new_rec,
            )
        }
        None => table_decision(book, perm, table.as_str(), user, rec, new_rec),
    }
}
