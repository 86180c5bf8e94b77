//! A chain walked, part by part.

ghost use Rattle.std.specs.Prelude.{◌≡◌, Option, Some, None};
ghost use Rattle.acl_rules.specs.Chain.{chain_of, of_column, of_document, of_table, part_in, rules_of};
ghost use Rattle.rule_audit.specs.Stops.{first_stop, stop_among, stop_at};

use crate::question::Question;
use crate::stop::Stop;
use acl_rules::{Part, RuleBook, is_of};
use cell_types::Name;

// What the rule at a place says, where it is of the part.
#[tactic(auto, using(crate::proofs::StopLemmas::alone))]
fn stop_at<Q: Question>(book: &RuleBook, place: usize, part: Part<'_>, question: &Q) -> Option<Stop>
    ensures { result ≡ stop_at (Q.says question.now) (part_in part.entry) book.now place }
{
    let Some((rule, resource)) = book.rule_at(place) else {
        return None;
    };
    if is_of(part, resource) {
        return question.says(rule);
    }
    None
}

// Where the rules at these places stop that are of the part.
fn stop_among<Q: Question>(
    book: &RuleBook,
    places: &[usize],
    part: Part<'_>,
    question: &Q,
) -> Option<Stop>
    ensures { result ≡ stop_among (Q.says question.now) (part_in part.entry) book.now places.now }
{
    for place in places {
        if let Some(stop) = stop_at(book, *place, part, question) {
            return Some(stop);
        }
    }
    None
}

// Where the rules of a column stop.
fn column_stop<Q: Question>(
    book: &RuleBook,
    table: &str,
    column: &str,
    question: &Q,
) -> Option<Stop>
    ensures { result ≡ first_stop (Q.says question.now)
        (rules_of (of_column table.now column.now) book.now) }
{
    let part = Part::Column(table, column);
    stop_among(book, book.places_on(table), part, question)
}

// Where the rules of a whole table stop.
fn table_stop<Q: Question>(book: &RuleBook, table: &str, question: &Q) -> Option<Stop>
    ensures { result ≡ first_stop (Q.says question.now) (rules_of (of_table table.now) book.now) }
{
    stop_among(book, book.places_on(table), Part::Table(table), question)
}

// Where the rules of the document stop.
fn document_stop<Q: Question>(book: &RuleBook, question: &Q) -> Option<Stop>
    ensures { result ≡ first_stop (Q.says question.now) (rules_of of_document book.now) }
{
    stop_among(book, book.places_on_document(), Part::Document, question)
}

/// Where the walk over the chain of a table stops.
///
/// Memory: none.
#[tactic(auto, using(crate::proofs::StopLemmas::stop_append))]
pub(crate) fn table_chain_stop<Q: Question>(
    book: &RuleBook,
    table: &Name,
    question: &Q,
) -> Option<Stop>
    ensures { result ≡ first_stop (Q.says question.now)
        (chain_of book.now (Some table.now) None) }
{
    match table_stop(book, table.as_str(), question) {
        Some(stop) => Some(stop),
        None => document_stop(book, question),
    }
}

/// Where the walk over the chain of a column of a table stops, by where it stops over the chain of
/// the table.
///
/// Memory: none.
#[tactic(auto, using(crate::proofs::StopLemmas::stop_append))]
pub(crate) fn column_chain_stop<Q: Question>(
    book: &RuleBook,
    table: &Name,
    column: &Name,
    question: &Q,
    behind: Option<Stop>,
) -> Option<Stop>
    requires { behind ≡ first_stop (Q.says question.now) (chain_of book.now (Some table.now) None) }
    ensures { result ≡ first_stop (Q.says question.now)
        (chain_of book.now (Some table.now) (Some column.now)) }
{
    match column_stop(book, table.as_str(), column.as_str(), question) {
        Some(stop) => Some(stop),
        None => behind,
    }
}
