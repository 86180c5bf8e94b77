//! A core that is started with its watchers.
ghost use Rattle.std.specs.Prelude.{◌≡◌, ◌≤◌, ◌<◌, ◌+◌, ◌-◌, ◌^◌, ◌++◌, ℕ, IfErr, IfOk, OnOk, vec_len};
ghost use Rattle.doc_model.specs.NewDocument.{new_document};
ghost use Rattle.doc_opening.specs.Opening.{FirstBad};
ghost use Rattle.doc_opening.specs.declared.opening.StartCause.TheVariants.{BadStore, StoreFault};
ghost use Rattle.io_edges.specs.Causes.{Rose};
ghost use Rattle.bundle_core.specs.KeptCore.{IsStarted};
ghost use Rattle.grist_run.specs.Watching.{numbered_from};

use bundle_core::{Core, StartFault};
use cell_types::Name;
use doc_keeper::Keeper;
use doc_model::UserList;
use doc_opening::StartCause;
use std::alloc::{AllocError, Global};
use std::thread::Threads;
use watch_box::Watcher;
use watched_core::WatchedCore;

/// A session that is watched, and who takes its stream lines.
#[derive(Drop)]
pub struct WatchedSession<W: Watcher> {
    pub session: Name,
    pub watcher: W,
}

/// Starts a core from its keeper as `Core::start` does, and attaches watchers in their order.
///
/// Errors: those of `Core::start`; out of memory. The keeper is handed back, and the watchers are
/// dropped.
pub fn start_watched<R: Threads + Sync, K: Keeper, W: Watcher>(
    rt: &R,
    alloc: Global,
    users: UserList,
    keeper: K,
    watchers: Vec<WatchedSession<W>>,
) -> Result<WatchedCore<K, W>, StartFault<K>>
    requires few { vec_len watchers < 2 ^ 32 - 1 }
    ensures ok { IfOk result (λ c.
        IsStarted users (K.records keeper) (K.failures keeper) c.core) }
    ensures watching { IfOk result (λ c. c.watching ≡ numbered_from (λ w. record {
      taken = W.taken w;
      refused_from = W.refused_from w;
      faults = W.faults w;
    }) 0 watchers.items) }
    ensures attached { IfOk result (λ c. c.attached ≡ vec_len watchers) }
    ensures same { IfErr result (λ f. K.records f.keeper ≡ K.records keeper) }
    ensures later { IfErr result (λ f. K.failures keeper ≤ K.failures f.keeper) }
    ensures fault { IfErr result (λ f. f.cause ≡ StoreFault
        → Rose (K.failures keeper) (K.failures f.keeper)) }
    ensures bad { IfErr result (λ f. (n : ℕ) → f.cause ≡ BadStore n
        → FirstBad (K.records keeper) new_document n) }
{
    let core = Core::start(rt, alloc, users, keeper)?;
    let mut watched = WatchedCore::new(alloc, core);
    match attach_all(&mut watched, watchers) {
        Ok(()) => Ok(watched),
        Err(_) => Err(StartFault {
            cause: StartCause::NoMemory,
            keeper: watched.finish().keeper,
        }),
    }
}

// Attaches the watchers in their order, as far as there is memory.
fn attach_all<K: Keeper, W: Watcher>(
    watched: &mut WatchedCore<K, W>,
    watchers: Vec<WatchedSession<W>>,
) -> Result<(), AllocError>
    requires few { watched.old.attached + vec_len watchers < 2 ^ 32 - 1 }
    ensures core { watched.new.core ≡ watched.old.core }
    ensures added { OnOk result (watched.new.watching ≡ watched.old.watching
        ++ numbered_from (λ w. record {
          taken = W.taken w;
          refused_from = W.refused_from w;
          faults = W.faults w;
        }) watched.old.attached watchers.items) }
    ensures counted { OnOk result
        (watched.new.attached ≡ watched.old.attached + vec_len watchers) }
{
    let mut watchers = watchers;
    watchers.reverse();
    while let Some(one) = watchers.pop() {
        let WatchedSession { session, watcher } = one;
        if watched.attach(session, watcher).is_err() {
            return Err(AllocError);
        }
    }
    Ok(())
}
