//! The walk of a chain, part by part, and which columns rules about reading list.

ghost use Rattle.std.specs.Prelude.{◌≡◌, Option, Some, None};
ghost use Rattle.std.specs.List.{list_any};
ghost use Rattle.acl_rules.specs.Chain.{chain_of, of_column, of_document, of_table, part_in, rules_of};
ghost use Rattle.acl_reading.specs.Shown.{tells_of_reading};
ghost use Rattle.acl_reading.specs.Walk.{first_end, is_shown_by};
ghost use Rattle.acl_reading.specs.Walking.{end_among, end_at, tells_at};

use crate::ending::{allows_reading, built_in_shows, ends_walk, tells_of_reading};
use acl_formula::UserInfo;
use acl_rules::{Part, RuleBook, is_of};

// What the rule at a place says, where it is of the part and ends the walk.
fn end_at(book: &RuleBook, place: usize, part: Part<'_>, user: &UserInfo) -> Option<bool>
    ensures { result ≡ end_at user.now (part_in part.entry) book.now place }
{
    let Some((rule, resource)) = book.rule_at(place) else {
        return None;
    };
    if is_of(part, resource) && ends_walk(rule, user) {
        return Some(allows_reading(rule));
    }
    None
}

// What the first rule at these places says that is of the part and ends the walk.
fn end_among(book: &RuleBook, places: &[usize], part: Part<'_>, user: &UserInfo) -> Option<bool>
    ensures { result ≡ end_among user.now (part_in part.entry) book.now places.now }
{
    for place in places {
        if let Some(shows) = end_at(book, *place, part, user) {
            return Some(shows);
        }
    }
    None
}

// What the rules of a column say.
fn column_end(book: &RuleBook, table: &str, column: &str, user: &UserInfo) -> Option<bool>
    ensures { result ≡ first_end user.now (rules_of (of_column table.now column.now) book.now) }
{
    let part = Part::Column(table, column);
    end_among(book, book.places_on(table), part, user)
}

// What the rules of a whole table say.
fn table_end(book: &RuleBook, table: &str, user: &UserInfo) -> Option<bool>
    ensures { result ≡ first_end user.now (rules_of (of_table table.now) book.now) }
{
    let part = Part::Table(table);
    end_among(book, book.places_on(table), part, user)
}

// What the rules of the document say.
#[tactic(auto, using(crate::proofs::WalkLemmas::document_picked))]
fn document_end(book: &RuleBook, user: &UserInfo) -> Option<bool>
    ensures { result ≡ first_end user.now (rules_of of_document book.now) }
{
    end_among(book, book.places_on_document(), Part::Document, user)
}

// Whether the document's chain shows.
fn document_shows(book: &RuleBook, user: &UserInfo) -> bool
    ensures { result ≡ is_shown_by user.now (chain_of book.now None None) }
{
    match document_end(book, user) {
        Some(shows) => shows,
        None => built_in_shows(&user.user),
    }
}

/// Whether a table's chain shows.
#[tactic(auto, using(crate::proofs::WalkLemmas::found_first, crate::proofs::WalkLemmas::none_first))]
pub(crate) fn table_shows(book: &RuleBook, table: &str, user: &UserInfo) -> bool
    ensures { result ≡ is_shown_by user.now (chain_of book.now (Some table.now) None) }
{
    match table_end(book, table, user) {
        Some(shows) => shows,
        None => document_shows(book, user),
    }
}

/// Whether a column's chain shows.
#[tactic(auto, using(crate::proofs::WalkLemmas::found_first, crate::proofs::WalkLemmas::none_first))]
pub(crate) fn column_shows(book: &RuleBook, table: &str, column: &str, user: &UserInfo) -> bool
    ensures { result
        ≡ is_shown_by user.now (chain_of book.now (Some table.now) (Some column.now)) }
{
    match column_end(book, table, column, user) {
        Some(shows) => shows,
        None => table_shows(book, table, user),
    }
}

// Whether the rule at a place is of the part and says something of reading.
fn tells_at(book: &RuleBook, place: usize, part: Part<'_>) -> bool
    ensures { result ≡ tells_at (part_in part.entry) book.now place }
{
    let Some((rule, resource)) = book.rule_at(place) else {
        return false;
    };
    is_of(part, resource) && tells_of_reading(rule)
}

fn tells_among(book: &RuleBook, places: &[usize], part: Part<'_>) -> bool
    ensures { result ≡ list_any (tells_at (part_in part.entry) book.now) places.now }
{
    for place in places {
        if tells_at(book, *place, part) {
            return true;
        }
    }
    false
}

/// Whether a rule about reading lists the column.
pub(crate) fn column_tells(book: &RuleBook, table: &str, column: &str) -> bool
    ensures { result
        ≡ list_any tells_of_reading (rules_of (of_column table.now column.now) book.now) }
{
    tells_among(book, book.places_on(table), Part::Column(table, column))
}
