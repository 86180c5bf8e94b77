//! The core: a document, its open sessions, and what each entry of a history makes of them.
//!
//! Stands on `doc_model` (documents, changes, entries), `bundle_judge` (what bundles and undos come
//! to), `column_store` (the document in memory), `evaluated_doc` (its formula cells evaluated),
//! `undo_bundles` (a session's bundles with their inverses), `rule_contexts`, `censored_view` and
//! `context_changes` (what users see and are told), `grist_json` (the texts of lines), `doc_keeper`
//! and `bundle_records` (the keeper of accepted bundles) and `doc_opening` (the document that its
//! records lead to). What an entry comes to is said in specs/State.antt, over plain lists, for
//! every document; what a user sees is what the rules in force for the user let be read of the
//! document with the value of each formula cell in its place.
//!
//! Promises: `Core::start` makes the document of a keeper's records. `Core::step` gives the lines
//! that the state after the history says, and adds the entry; an accepted bundle is kept before it
//! takes effect, and where the keeper fails its session is told so and nothing else changes; a full
//! history and running out of memory change nothing, and a session that goes away takes no memory.
//! What the keeper tells leads to the present document, always. `isolation_law`: a session is given
//! exactly what its own requests, verdicts and views tell; `equal_bytes_law`: histories that it
//! observes alike give it equal bytes.
//! `undo_law`: where no other bundle was accepted since, an undo of a session's bundle is never
//! stale, and where it is accepted the document is that before the bundle. `refusal_law`: a bundle
//! is refused for its first action by what its session's user sees, and by nothing else.
//! `renaming_law`: a renaming is refused for what its plan, made of what its session's user sees,
//! leaves unresolved, and else answered as the bundle of its planned actions.
//! `Core::last_change` tells what the last entry did where it was an accepted bundle, and exactly
//! then (specs/LastChange.antt), without memory.
//! `made_line_law`: how many lines were made for a session is counted as they are made
//! (specs/MadeLines.antt); `Core::line_made` hands out the one that the last entry made. What a
//! core is asked and answers as a machine that threads step in turn is said by histories alone
//! (specs/Machine.antt); `watched_core` has that machine. What is told of a core's keeper is told
//! by `history` and `finish` of every core (`IsKeeping`).
//! Costs: a bundle costs its judgement, which does its steps for good and makes its inverse, and a
//! line for each session. What is told of a bundle of records costs the rows that it touched, for
//! each user who has a session open; of one that changes the schema or the rules, the document, and
//! its steps are taken back for it and done once more; so too for each user of whom rules know
//! something else after it. What is in force for a user is read once, and again where a bundle may
//! have changed it; before a bundle is judged it is
//! read for each user who has a session open. A session's index is found by a walk.
//! Read first: specs/State.antt, specs/Told.antt, specs/Core.antt, specs/KeptBundles.antt and
//! specs/KeptCore.antt, then history_core.rt, loading.rt, dispatch.rt, bundle.rt and
//! telling.rt.
#![tactic(auto)]

mod bundle;
mod dispatch;
mod followed;
mod fronts;
mod history_core;
mod last_change;
mod laws;
mod loading;
mod machine;
mod past;
mod ruled_document;
mod session;
mod session_index;
mod telling;
mod turns;

pub use history_core::{
    Answer, Core, Finished, LineList, MAX_ENTRIES, MAX_HISTORY_BYTES, StartFault, is_gone,
};
pub use last_change::LastChange;
pub use laws::{
    equal_bytes_law, isolation_law, made_line_law, refusal_law, renaming_law, undo_law,
};
pub use machine::{CoreOpening, Event, Given};
pub use past::CorePast;
pub use ruled_document::shown_table;
pub use session::{MAX_WAITING_BYTES, MAX_WAITING_LINES, OpenSession};
