//! What peeks are answered, and how that is printed.
ghost use Rattle.std.specs.Prelude.{◌≡◌, None, IfOk};
ghost use Rattle.grist_json.specs.Json.{IsJson};
ghost use Rattle.grist_json.specs.Lines.{IsPrinted, reply_text};
ghost use Rattle.peek_lines.specs.Answers.{answer_data, verdict_of};

use doc_model::{Refusal, Verdict, ViewActionList};
use grist_json::{Line, write_reply};
use std::alloc::{AllocError, Global};

/// The answer to a peek.
#[derive(Drop)]
pub enum PeekAnswer {
    /// The changes that lead from nothing to what is shown of the table.
    Table(ViewActionList),
    /// The session is not open in the shot.
    NotOpen,
    /// The session lags in the shot.
    Lagged,
    /// Nothing of that table is shown.
    NoSuchTable,
}

// The verdict that a request would be answered by.
fn verdict(answer: PeekAnswer) -> Verdict
    ensures { result ≡ verdict_of answer }
{
    let refusal = match answer {
        PeekAnswer::Table(actions) => return Verdict::Changes(actions),
        PeekAnswer::NotOpen => Refusal::NotOpen,
        PeekAnswer::Lagged => Refusal::Lagged,
        PeekAnswer::NoSuchTable => Refusal::NoSuchTable,
    };
    Verdict::Refused {
        refusal,
        action: None,
    }
}

/// Prints the reply that tells an answer: the compact text of its JSON, keys sorted.
///
/// Errors: out of memory.
pub fn write_peek(alloc: Global, answer: PeekAnswer) -> Result<Line, AllocError>
    ensures text { IfOk result (λ l. l ≡ reply_text (verdict_of answer)) }
    ensures spells { IfOk result (λ l. IsJson l (answer_data answer)) }
    ensures printed { IfOk result (λ l. IsPrinted l (answer_data answer)) }
{
    write_reply(alloc, &verdict(answer))
}
