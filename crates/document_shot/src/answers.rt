//! What a peek shows.

ghost use Rattle.std.specs.Prelude.{◌≡◌, IfOk};
ghost use Rattle.doc_model.specs.Changes.{IsView};
ghost use Rattle.document_shot.specs.PeekAnswers.{table_answer};

use doc_model::{View, ViewTableList};
use peek_lines::PeekAnswer;
use plain_view::changes;
use std::alloc::{AllocError, Global};

/// The table that was asked for, where something of it is seen.
pub(crate) fn table_answer(alloc: Global, seen: &View) -> Result<PeekAnswer, AllocError>
    requires { IsView seen.now.tables }
    ensures { IfOk result (λ a. a ≡ table_answer seen.now.tables) }
{
    if seen.tables.is_empty() {
        return Ok(PeekAnswer::NoSuchTable);
    }
    let nothing = View {
        tables: ViewTableList::new(alloc),
    };
    Ok(PeekAnswer::Table(changes(alloc, &nothing, seen)?))
}
