//! Laws of histories.

ghost use Rattle.bundle_core.specs.MadeLines.{MadeLineLaw};
ghost use Rattle.bundle_core.specs.RefusalLaw.{ObjectionLaw, RefusalLaw};
ghost use Rattle.bundle_core.specs.RenamingLaw.{ResolvedLaw, UnresolvedLaw};
ghost use Rattle.bundle_core.specs.Told.{EqualBytesLaw, IsolationLaw};
ghost use Rattle.bundle_core.specs.UndoLaw.{LimitsLeaveFewIds, NewDocumentHasFewIds, UndoLaw};

use rule_contexts::seen_law;
use user_actions::steps_law;

/// A session is given exactly what its own requests, verdicts and views tell.
pub fn isolation_law()
    ensures { IsolationLaw }
{}

/// Two histories that a session observes alike give it equal bytes, whatever else differs in them.
pub fn equal_bytes_law()
    ensures { EqualBytesLaw }
{}

/// Where an accepted bundle is undone by its session with no other accepted bundle between, the
/// document is that before the bundle, and the undo is not refused as stale: in every history from
/// every whole document whose ids are few enough that there are free ones, as those of the new one
/// are, and of each that passes no limit.
pub fn undo_law()
    ensures undoes { UndoLaw }
    ensures new { NewDocumentHasFewIds }
    ensures limits { LimitsLeaveFewIds }
{
    seen_law();
    steps_law();
}

/// Where the users of open sessions see the same in two states, a bundle is refused for its first
/// action in both for the same reason, or in neither: whatever users, histories and documents these
/// have. Limits, rules and the keeper answer otherwise.
pub fn refusal_law()
    ensures objection { ObjectionLaw }
    ensures same { RefusalLaw }
{}

/// A renaming is refused for what is unresolved in its plan exactly where the plan, by what its
/// session's user sees, counts something; else it comes to what the bundle of the planned actions
/// comes to, in every state.
pub fn renaming_law()
    ensures unresolved { UnresolvedLaw }
    ensures resolved { ResolvedLaw }
{}

/// How many lines were made for a session is counted as they are made, in every state.
pub fn made_line_law()
    ensures { MadeLineLaw }
{}
