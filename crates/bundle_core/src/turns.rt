//! The turns of open sessions, over the list of them: what each is given, and how it stands after
//! it.

ghost use Rattle.std.specs.Prelude.{◌≡◌, ◌<◌, ◌^◌, [], ◌∷◌, ◌++◌, length, map, get_or, IfOk, OnOk, OnErr};
ghost use Rattle.std.specs.List.{AllByRecursion};
ghost use Rattle.bundle_core.specs.Replies.{reply_of};
ghost use Rattle.bundle_core.specs.Dispatch.{AreSame, Leaves, Stays};
ghost use Rattle.bundle_core.specs.SessionState.{SessionState, IsReady, MayPost, posted_state};
ghost use Rattle.context_changes.specs.Known.{told_by};

use crate::fronts::fronts_of;
use crate::session::OpenSession;
use acl_rules::Ctx;
use bundle_judge::BareVerdict;
use doc_model::ViewActionList;
use grist_json::{Line, write_reply};
use std::alloc::{AllocError, Global};

/// The reply with this verdict.
pub(crate) fn reply_with(alloc: Global, verdict: BareVerdict) -> Result<Line, AllocError>
    ensures { IfOk result (λ l. l ≡ reply_of verdict) }
{
    write_reply(alloc, &verdict.into_verdict())
}

/// A line alone, to a session that was not open.
pub(crate) fn line_alone(alloc: Global, line: Line) -> Result<Vec<Line>, AllocError>
    ensures { IfOk result (λ v. v.items ≡ line ∷ []) }
{
    let mut lines = Vec::new(alloc);
    lines.push(line)?;
    Ok(lines)
}

/// A reply alone, to a session that is not open.
pub(crate) fn reply_alone(alloc: Global, verdict: BareVerdict) -> Result<Vec<Line>, AllocError>
    ensures { IfOk result (λ v. v.items ≡ reply_of verdict ∷ []) }
{
    line_alone(alloc, reply_with(alloc, verdict)?)
}

/// Gives the session of that index what waits and the reply, and closes it. When out of memory, the
/// sessions are the same.
pub(crate) fn leave(
    alloc: Global,
    sessions: &mut Vec<OpenSession>,
    index: usize,
    verdict: BareVerdict,
) -> Result<Vec<Line>, AllocError>
    requires { index < length sessions.old.items }
    ensures ok { IfOk result (λ v. Leaves sessions.old.items sessions.new.items index
        (reply_of verdict) v.items) }
    ensures err { OnErr result (AreSame sessions.old.items sessions.new.items) }
{
    let reply = reply_with(alloc, verdict)?;
    let session = &mut sessions[index];
    session.make_room(1)?;
    let session = sessions.remove(index);
    Ok(session.leave(reply))
}

/// Gives the session of that index what waits and this reply. When out of memory, the sessions are
/// the same.
pub(crate) fn give(
    alloc: Global,
    sessions: &mut Vec<OpenSession>,
    index: usize,
    reply: Line,
) -> Result<Vec<Line>, AllocError>
    requires { index < length sessions.old.items }
    ensures ok { IfOk result (λ v. Stays sessions.old.items sessions.new.items index reply
        v.items) }
    ensures err { OnErr result (AreSame sessions.old.items sessions.new.items) }
{
    let session = &mut sessions[index];
    session.make_room(1)?;
    Ok(session.give(alloc, reply))
}

/// Gives the session of that index what waits and the reply. When out of memory, the sessions are
/// the same.
pub(crate) fn stay(
    alloc: Global,
    sessions: &mut Vec<OpenSession>,
    index: usize,
    verdict: BareVerdict,
) -> Result<Vec<Line>, AllocError>
    requires { index < length sessions.old.items }
    ensures ok { IfOk result (λ v. Stays sessions.old.items sessions.new.items index
        (reply_of verdict) v.items) }
    ensures err { OnErr result (AreSame sessions.old.items sessions.new.items) }
{
    let reply = reply_with(alloc, verdict)?;
    give(alloc, sessions, index, reply)
}

/// Gives the session of that index what waits and the reply, for which there is room.
///
/// Memory: none.
pub(crate) fn stay_ready(
    alloc: Global,
    sessions: &mut Vec<OpenSession>,
    index: usize,
    reply: Line,
) -> Vec<Line>
    requires within { index < length sessions.old.items }
    requires room { (d : SessionState) → 0 < (get_or sessions.old.items index d).room }
    ensures { Stays sessions.old.items sessions.new.items index reply result.items }
{
    let session = &mut sessions[index];
    session.give(alloc, reply)
}

/// Makes ready the line that tells each session what its user is told. When out of memory, the
/// sessions are the same.
pub(crate) fn prepare_all(
    alloc: Global,
    sessions: &mut [OpenSession],
    contexts: &[Ctx],
    told: &[ViewActionList],
) -> Result<(), AllocError>
    requires { AllByRecursion (λ x. x.made < 2 ^ 63) sessions.old }
    ensures same { AreSame sessions.old sessions.new }
    ensures ready { OnOk result
        (AllByRecursion (IsReady (told_by contexts.now told.now)) sessions.new) }
{
    let fronts = fronts_of(alloc, told)?;
    for session in sessions.iter_mut() {
        session.prepare(alloc, contexts, fronts.as_slice())?;
    }
    Ok(())
}

/// Posts each session the line that was made ready for it.
pub(crate) fn post_all(sessions: &mut [OpenSession])
    requires { AllByRecursion MayPost sessions.old }
    ensures { sessions.new ≡ map posted_state sessions.old }
{
    for session in sessions.iter_mut() {
        session.post();
    }
}
