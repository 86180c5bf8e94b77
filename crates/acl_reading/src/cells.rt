//! What chains decide of reading a row, part by part. Rules that say nothing of reading are passed
//! over before anything is compared.

ghost use Rattle.std.specs.Prelude.{◌≡◌, None, Some, option_map};
ghost use Rattle.acl_formula.specs.declared.permissions.Perm.TheVariants as perm;
ghost use Rattle.acl_rules.specs.Chain.{chain_of, of_column, of_document, of_table, part_in, rules_of};
ghost use Rattle.acl_rules.specs.Decided.{decides, decision_in, first_answer};
ghost use Rattle.acl_reading.specs.Shown.{reading_row};
ghost use Rattle.acl_reading.specs.Walk.{allows};
ghost use Rattle.acl_reading.specs.Walking.{reads_among, reads_at};

use crate::ending::{built_in_shows, tells_of_reading};
use acl_formula::{Perm, RowReader, UserInfo};
use acl_rules::{Part, Rule, RuleBook, decides, is_of};

/// No row, where one of this kind may be given.
pub(crate) fn no_row<'a, W>(_row: &'a W) -> Option<&'a W>
    ensures { result ≡ None }
{
    None
}

// Whether the rule decides reading of the row. Not inlined: the place for a large formula is paid
// for at entry, and rules that are passed over need none.
#[inline(never)]
fn decides_reading<W: RowReader>(rule: &Rule, user: &UserInfo, row: &W) -> bool
    ensures { result ≡ decides (reading_row user.now (W.told row.now)) perm.R rule.now }
{
    decides(Perm::R, rule, user, Some(row), no_row(row))
}

// What the rule at a place decides of the row, where it is of the part. What takes least is asked
// first.
fn reads_at<W: RowReader>(
    book: &RuleBook,
    place: usize,
    part: Part<'_>,
    user: &UserInfo,
    row: &W,
) -> Option<bool>
    ensures { result ≡ reads_at (reading_row user.now (W.told row.now)) (part_in part.entry)
        book.now place }
{
    let Some((rule, resource)) = book.rule_at(place) else {
        return None;
    };
    if !tells_of_reading(rule) || !is_of(part, resource) {
        return None;
    }
    if decides_reading(rule, user, row) {
        return Some(!rule.permissions.denied.has(Perm::R));
    }
    None
}

// What the first rule at these places decides that is of the part.
fn reads_among<W: RowReader>(
    book: &RuleBook,
    places: &[usize],
    part: Part<'_>,
    user: &UserInfo,
    row: &W,
) -> Option<bool>
    ensures { result ≡ reads_among (reading_row user.now (W.told row.now)) (part_in part.entry)
        book.now places.now }
{
    for place in places {
        if let Some(reads) = reads_at(book, *place, part, user, row) {
            return Some(reads);
        }
    }
    None
}

/// What the rules that list a column decide of its cell in the row.
pub(crate) fn column_reads<W: RowReader>(
    book: &RuleBook,
    table: &str,
    column: &str,
    user: &UserInfo,
    row: &W,
) -> Option<bool>
    ensures { result ≡ option_map allows
        (first_answer (reading_row user.now (W.told row.now)) perm.R
        (rules_of (of_column table.now column.now) book.now)) }
{
    let part = Part::Column(table, column);
    reads_among(book, book.places_on(table), part, user, row)
}

// What the rules of a whole table decide of the row.
fn table_reads<W: RowReader>(book: &RuleBook, table: &str, user: &UserInfo, row: &W) -> Option<bool>
    ensures { result ≡ option_map allows
        (first_answer (reading_row user.now (W.told row.now)) perm.R
        (rules_of (of_table table.now) book.now)) }
{
    reads_among(book, book.places_on(table), Part::Table(table), user, row)
}

// What the rules of the document decide of the row.
#[tactic(auto, using(crate::proofs::WalkLemmas::document_read))]
fn document_reads<W: RowReader>(book: &RuleBook, user: &UserInfo, row: &W) -> Option<bool>
    ensures { result ≡ option_map allows
        (first_answer (reading_row user.now (W.told row.now)) perm.R
        (rules_of of_document book.now)) }
{
    reads_among(book, book.places_on_document(), Part::Document, user, row)
}

// Whether the document's chain lets the row be read.
#[tactic(auto, using(crate::proofs::WalkLemmas::behind_all))]
fn document_lets<W: RowReader>(book: &RuleBook, user: &UserInfo, row: &W) -> bool
    ensures { result ≡ allows (decision_in (reading_row user.now (W.told row.now)) perm.R
        (chain_of book.now None None)) }
{
    match document_reads(book, user, row) {
        Some(reads) => reads,
        None => built_in_shows(&user.user),
    }
}

/// Whether a table's chain lets the row be read.
#[tactic(auto, using(crate::proofs::WalkLemmas::read_first, crate::proofs::WalkLemmas::read_behind))]
pub(crate) fn table_lets<W: RowReader>(
    book: &RuleBook,
    table: &str,
    user: &UserInfo,
    row: &W,
) -> bool
    ensures { result ≡ allows (decision_in (reading_row user.now (W.told row.now)) perm.R
        (chain_of book.now (Some table.now) None)) }
{
    match table_reads(book, table, user, row) {
        Some(reads) => reads,
        None => document_lets(book, user, row),
    }
}

/// Whether a column's chain lets the row be read.
#[tactic(auto, using(crate::proofs::WalkLemmas::read_first, crate::proofs::WalkLemmas::read_behind))]
pub(crate) fn column_lets<W: RowReader>(
    book: &RuleBook,
    table: &str,
    column: &str,
    user: &UserInfo,
    row: &W,
) -> bool
    ensures { result ≡ allows (decision_in (reading_row user.now (W.told row.now)) perm.R
        (chain_of book.now (Some table.now) (Some column.now))) }
{
    match column_reads(book, table, column, user, row) {
        Some(reads) => reads,
        None => table_lets(book, table, user, row),
    }
}
