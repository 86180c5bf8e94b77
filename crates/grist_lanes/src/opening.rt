//! A gate round a core that publishes shots: how it is made, with its passes and readers, and how
//! it is closed.

ghost use Rattle.std.specs.Prelude.{◌≡◌, ◌≤◌, ◌<◌, ◌∷◌, [], All, IfErr, IfOk, length, vec_len};
ghost use Rattle.std.specs.List.{AllByRecursion};
ghost use Rattle.session_gate.specs.Gate.{AreAllNew, IsPassOf, IsWhole};
ghost use Rattle.bundle_core.specs.Machine.{opening_of};
ghost use Rattle.document_shot.specs.Pasts.{past_of};

use doc_keeper::Keeper;
use document_shot::PeekReader;
use session_gate::{Gate, Machine, NoGate, PassList};
use shot_core::ShotCore;
use std::alloc::{AllocError, Global};
use std::sync::Wait;
use watch_box::Watcher;
use watched_core::WatchedCore;

/// A gate round a core that publishes shots, its passes, and as many readers of the shots.
pub(crate) struct Opened<K: Keeper, W: Watcher> {
    pub gate: Gate<ShotCore<K, W>>,
    pub passes: PassList<ShotCore<K, W>>,
    pub readers: Vec<PeekReader>,
}

// So many readers of the shots of a core.
fn make_readers<K: Keeper, W: Watcher>(
    alloc: Global,
    core: &mut ShotCore<K, W>,
    count: usize,
) -> Result<Vec<PeekReader>, AllocError>
    ensures count { IfOk result (λ readers. vec_len readers ≡ count) }
    ensures each { IfOk result (λ readers. AllByRecursion
        (λ r. r.known ≡ core.old.writer.published ∷ []) readers.items) }
    ensures same { core.new ≡ core.old }
{
    let mut readers = Vec::with_capacity(alloc, count)?;
    for _reader in 0..count {
        readers.push_reserved(core.reader()?);
    }
    Ok(readers)
}

/// Makes a gate round a core, with so many passes and readers of shots. Each reader knows the
/// history that the core brings.
///
/// Errors: out of memory; the core comes back as it was.
/// Memory: two copies of the document, and the lists.
pub(crate) fn open_gate<R: Wait, K: Keeper, W: Watcher>(
    rt: &R,
    alloc: Global,
    watched: WatchedCore<K, W>,
    count: u32,
) -> Result<Opened<K, W>, WatchedCore<K, W>>
    requires { (0 < count) × (count ≤ 64) }
    ensures gate { IfOk result (λ o. (o.gate.start.watched ≡ watched) × (o.gate.made ≡ count)) }
    ensures each { IfOk result (λ o. AreAllNew (λ m. m.watched.core.state.history)
        (λ m. opening_of m.watched.core) o.gate o.passes) }
    ensures own { IfOk result (λ o. All (IsPassOf o.gate) o.passes) }
    ensures count { IfOk result (λ o. vec_len o.readers ≡ count) }
    ensures readers { IfOk result (λ o. AllByRecursion
        (λ r. r.known ≡ past_of watched.core.state ∷ []) o.readers.items) }
    ensures err { IfErr result (λ w. w ≡ watched) }
{
    let mut core = match ShotCore::open(rt, alloc, watched, count) {
        Ok(core) => core,
        Err(watched) => return Err(watched),
    };
    let readers = match make_readers(alloc, &mut core, count as usize) {
        Ok(readers) => readers,
        Err(_) => return Err(core.finish(rt)),
    };
    match Gate::new(alloc, core, count) {
        Ok((gate, passes)) => Ok(Opened {
            gate,
            passes,
            readers,
        }),
        Err(NoGate { machine }) => {
            drop(readers);
            Err(machine.finish(rt))
        }
    }
}

/// Closes a gate to which all its passes came back, and gives the machine.
///
/// Memory: none.
pub(crate) fn close_gate<M: Machine>(gate: Gate<M>, passes: PassList<M>) -> M
    requires own { All (IsPassOf gate) passes }
    requires all { length passes ≡ gate.made }
    ensures { (log : _) × IsWhole M.history M.opening M.takes M.answers gate result passes log }
{
    match gate.close(passes) {
        Ok(machine) => machine,

        // None is missing, so this is not reached. What it has can be let go of nowhere, since a
        // machine need not be `Drop`.
        Err(_unjoined) => loop {},
    }
}
