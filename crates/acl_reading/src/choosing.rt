//! Which formulas decide reading of a table's rows, chosen once for all rows. Rules of other parts,
//! rules that say nothing of reading and rules that match no row are passed over once, and what
//! stands behind a rule that matches every row is not asked.

ghost use Rattle.std.specs.Prelude.{◌≡◌, None, Some, false, IfOk, MatchOption, option_map, unwrap_or};
ghost use Rattle.acl_formula.specs.RuleRow.{RuleRow};
ghost use Rattle.acl_formula.specs.declared.permissions.Perm.TheVariants as perm;
ghost use Rattle.acl_rules.specs.Chain.{of_column, of_document, of_table, part_in, rules_of};
ghost use Rattle.acl_rules.specs.Decided.{first_answer};
ghost use Rattle.censored_view.specs.RowTests.{answer_of, or_answer, tests_say};
ghost use Rattle.censored_view.specs.Tested.{AreRowTests};
ghost use Rattle.acl_reading.specs.Choosing.{choice_for_all, choice_says, rule_reads};
ghost use Rattle.acl_reading.specs.RulesLet.{shown_of};
ghost use Rattle.acl_reading.specs.Shown.{own_answer, reading_row};
ghost use Rattle.acl_reading.specs.Walk.{allows, asks_row};
ghost use Rattle.acl_reading.specs.Walking.{reads_among, reads_at};

use crate::ending::{built_in_shows, tells_of_reading};
use acl_formula::{AttributeRow, Perm, RuleTree, UserInfo};
use acl_rules::{Ctx, Part, Rule, RuleBook, decides, is_of};
use cell_types::Name;
use censored_view::{RowTest, RowTests};
use std::alloc::{AllocError, Global};

/// What a rule comes to before any row is seen.
#[derive(Clone, Copy)]
pub(crate) enum Choice<'a> {
    /// It decides of no row.
    Passed,
    /// It decides so of each row.
    Decided(bool),
    /// It decides of the rows that its formula matches.
    Asks(RowTest<'a>),
}

// The formula of a rule that uses a row.
fn asked_formula(rule: &Rule) -> Option<&RuleTree>
    ensures { MatchOption result (asks_row rule.now ≡ false)
        (λ tree. (rule.now.formula ≡ Some tree.now)) }
{
    match &rule.formula {
        Some(tree) if tree.uses_row() => Some(tree),
        _ => None,
    }
}

// What a rule about reading comes to that uses no row.
fn choice_for_all<'a>(rule: &'a Rule, user: &UserInfo, denies: bool) -> Choice<'a>
    ensures { result ≡ choice_for_all user.now rule.now denies }
{
    if decides::<AttributeRow>(Perm::R, rule, user, None, None) {
        return Choice::Decided(!denies);
    }
    Choice::Passed
}

fn choice_of<'a>(rule: &'a Rule, user: &UserInfo) -> Choice<'a>
    ensures { (row : RuleRow) → choice_says user.now row result
        ≡ rule_reads (reading_row user.now row) rule.now }
{
    if !tells_of_reading(rule) {
        return Choice::Passed;
    }
    let denies = rule.permissions.denied.has(Perm::R);
    match asked_formula(rule) {
        Some(formula) => Choice::Asks(RowTest { formula, denies }),
        None => choice_for_all(rule, user, denies),
    }
}

// What the rule at a place comes to, where it is of the part.
fn choice_at<'a>(book: &'a RuleBook, place: usize, part: Part<'_>, user: &UserInfo) -> Choice<'a>
    ensures { (row : RuleRow) → choice_says user.now row result
        ≡ reads_at (reading_row user.now row) (part_in part.entry) book.now place }
{
    let Some((rule, resource)) = book.rule_at(place) else {
        return Choice::Passed;
    };
    if !is_of(part, resource) {
        return Choice::Passed;
    }
    choice_of(rule, user)
}

// These tests, and behind them those of the rules at these places that are of the part.
fn add_tests<'a>(
    book: &'a RuleBook,
    places: &[usize],
    part: Part<'_>,
    user: &'a UserInfo,
    tests: Vec<RowTest<'a>>,
) -> Result<RowTests<'a>, AllocError>
    ensures user { IfOk result (λ t. t.user.now ≡ user.now) }
    ensures says { IfOk result (λ t. (row : RuleRow) → answer_of t row
        ≡ or_answer (tests_say user.now row tests.entry.items)
        (reads_among (reading_row user.now row) (part_in part.entry) book.now places.now)) }
{
    let mut chosen = tests;
    for place in places {
        match choice_at(book, *place, part, user) {
            Choice::Passed => {}
            Choice::Decided(reads) => {
                return Ok(RowTests {
                    user,
                    tests: chosen,
                    otherwise: Some(reads),
                });
            }
            Choice::Asks(test) => chosen.push(test)?,
        }
    }
    Ok(RowTests {
        user,
        tests: chosen,
        otherwise: None,
    })
}

// The same behind tests that may have an answer for all rows: then nothing behind them is asked.
fn add_behind<'a>(
    book: &'a RuleBook,
    places: &[usize],
    part: Part<'_>,
    chosen: RowTests<'a>,
) -> Result<RowTests<'a>, AllocError>
    ensures user { IfOk result (λ t. t.user.now ≡ chosen.entry.user.now) }
    ensures says { IfOk result (λ t. (row : RuleRow) → answer_of t row
        ≡ or_answer (answer_of chosen.entry row)
        (reads_among (reading_row chosen.entry.user.now row) (part_in part.entry) book.now
        places.now)) }
{
    match chosen.otherwise {
        Some(_) => Ok(chosen),
        None => add_tests(book, places, part, chosen.user, chosen.tests),
    }
}

// These tests, with an answer for all rows behind them.
fn or_else<'a>(chosen: RowTests<'a>, answer: bool) -> RowTests<'a>
    ensures user { result.user.now ≡ chosen.entry.user.now }
    ensures says { (row : RuleRow) → answer_of result row
        ≡ or_answer (answer_of chosen.entry row) (Some answer) }
{
    match chosen.otherwise {
        Some(_) => chosen,
        None => RowTests {
            user: chosen.user,
            tests: chosen.tests,
            otherwise: Some(answer),
        },
    }
}

/// The tests that answer so for each row.
pub(crate) fn always<'a>(alloc: Global, user: &'a UserInfo, answer: bool) -> RowTests<'a>
    ensures { (row : RuleRow) → answer ≡ unwrap_or (answer_of result row) false }
{
    RowTests {
        user,
        tests: Vec::new(alloc),
        otherwise: Some(answer),
    }
}

// The tests of the rules that list a column.
fn column_tests<'a>(
    alloc: Global,
    book: &'a RuleBook,
    table: &str,
    column: &str,
    user: &'a UserInfo,
) -> Result<RowTests<'a>, AllocError>
    ensures { IfOk result (λ t. (row : RuleRow) → answer_of t row ≡ option_map allows
        (first_answer (reading_row user.now row) perm.R
        (rules_of (of_column table.now column.now) book.now))) }
{
    let part = Part::Column(table, column);
    let tests = add_tests(book, book.places_on(table), part, user, Vec::new(alloc))?;
    Ok(tests)
}

// The tests of the rules of a whole table.
fn table_tests<'a>(
    alloc: Global,
    book: &'a RuleBook,
    table: &str,
    user: &'a UserInfo,
) -> Result<RowTests<'a>, AllocError>
    ensures user { IfOk result (λ t. t.user.now ≡ user.now) }
    ensures says { IfOk result (λ t. (row : RuleRow) → answer_of t row ≡ option_map allows
        (first_answer (reading_row user.now row) perm.R
        (rules_of (of_table table.now) book.now))) }
{
    let part = Part::Table(table);
    let tests = add_tests(book, book.places_on(table), part, user, Vec::new(alloc))?;
    Ok(tests)
}

// These tests, and behind them those of the rules of the document.
fn with_document<'a>(book: &'a RuleBook, chosen: RowTests<'a>) -> Result<RowTests<'a>, AllocError>
    ensures { IfOk result (λ t. (row : RuleRow) → answer_of t row
        ≡ or_answer (answer_of chosen.entry row) (option_map allows
        (first_answer (reading_row chosen.entry.user.now row) perm.R
        (rules_of of_document book.now)))) }
{
    let places = book.places_on_document();
    let tests = add_behind(book, places, Part::Document, chosen)?;
    Ok(tests)
}

/// The tests by which the rules that list a column decide of its cell in a row.
///
/// Errors: out of memory. Cost: the rules that are about the table.
pub(crate) fn own_tests<'a>(
    alloc: Global,
    ctx: &'a Ctx,
    table: &Name,
    column: &Name,
) -> Result<RowTests<'a>, AllocError>
    ensures { IfOk result (λ t. (row : RuleRow)
        → answer_of t row ≡ own_answer ctx.now table.now column.now row) }
{
    column_tests(alloc, &ctx.book, table.as_str(), column.as_str(), &ctx.user)
}

/// The tests by which a table's chain lets a row be read.
///
/// Errors: out of memory. Cost: the rules that are about the table, and those about the document.
pub(crate) fn row_tests<'a>(
    alloc: Global,
    ctx: &'a Ctx,
    table: &Name,
) -> Result<RowTests<'a>, AllocError>
    ensures { IfOk result (AreRowTests (shown_of ctx.now table.now)) }
{
    let first = table_tests(alloc, &ctx.book, table.as_str(), &ctx.user)?;
    let both = with_document(&ctx.book, first)?;
    Ok(or_else(both, built_in_shows(&ctx.user.user)))
}
