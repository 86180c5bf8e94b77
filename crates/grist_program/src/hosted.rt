//! A run over standard input and output, given ports, and the keeper and the watcher that the
//! words ask for.
ghost use Rattle.std.specs.Prelude.{◌≡◌, ◌≤◌, ◌<◌, ◌-◌, ◌^◌, All, IfOk, false, vec_len};

use crate::Outside;
use cell_types::Name;
use doc_keeper::{Keeper, SureKeeper};
use file_keeper::SqliteKeeper;
use grist_hosting::run;
use grist_run::{Outcome, Status, WatchedSession};
use io_edges::{Port, StdSink, StdSource};
use std::alloc::{AllocError, Global};
use std::io::Write;
use std::marker::Send;
use std::sync::Wait;
use std::thread::Threads;
use watch_box::{ErrorOut, StderrWatcher, Watcher};

// The watcher that the words ask for.
fn watchers_of<E: Write + Drop>(
    alloc: Global,
    watch: Option<Name>,
    error: E,
) -> Result<Vec<WatchedSession<StderrWatcher<E>>>, AllocError>
    ensures { IfOk result (λ v. vec_len v ≤ 1) }
{
    let mut watchers = Vec::new(alloc);
    if let Some(session) = watch {
        let watcher = StderrWatcher::new(error);
        watchers.push(WatchedSession { session, watcher })?;
    }
    Ok(watchers)
}

// Standard error. A server does not wait for whoever reads it; a replay, which has nobody waiting
// for it, does.
fn error_out(host: &HostRuntime, lanes: u32) -> ErrorOut {
    if lanes > 0 {
        ErrorOut::unwaiting(host)
    } else {
        ErrorOut::waiting(host)
    }
}

fn run_over<R: Threads + Wait + Sync, P: Port + Send, K: Keeper + Send, W: Watcher + Send>(
    rt: &R,
    host: &HostRuntime,
    words: &[String],
    mut ports: Vec<P>,
    watchers: Vec<WatchedSession<W>>,
    keeper: K,
) -> Outcome<K>
    requires home { All (λ p. (P.state p).lent ≡ false) ports.items }
    requires few { vec_len watchers < 2 ^ 32 - 1 }
{
    let mut input = StdSource::new(host.stdin());
    let mut out = StdSink::new(host.stdout());
    run(
        rt,
        host.alloc(),
        words,
        &mut input,
        &mut out,
        keeper,
        &mut ports,
        watchers,
    )
}

// A run over the file of that document. Whether or not closing it joins the file with its log, both
// together have what was kept.
fn run_in_file<R: Threads + Wait + Sync, P: Port + Send, W: Watcher + Send>(
    rt: &R,
    host: &HostRuntime,
    words: &[String],
    ports: Vec<P>,
    watchers: Vec<WatchedSession<W>>,
    doc: &Name,
) -> Result<Status, AllocError>
    requires home { All (λ p. (P.state p).lent ≡ false) ports.items }
    requires few { vec_len watchers < 2 ^ 32 - 1 }
{
    let mut path = String::from_str(host.alloc(), doc.as_str())?;
    path.push_str(".grist")?;
    let keeper = SqliteKeeper::new(host, path);
    let Outcome {
        status,
        at: _,
        history: _,
        keeper,
    } = run_over(rt, host, words, ports, watchers, keeper);
    let _ = keeper.close();
    Ok(status)
}

/// Does what the words ask for, over those ports, and answers with how the run ended.
///
/// Errors: `AllocError`, where memory is wanting before the run begins.
pub fn status_over<R: Threads + Wait + Sync, P: Port + Send>(
    rt: &R,
    host: &HostRuntime,
    words: &[String],
    outside: Outside,
    ports: Vec<P>,
) -> Result<Status, AllocError>
    requires { All (λ p. (P.state p).lent ≡ false) ports.items }
{
    let Outside {
        doc,
        watch,
        lanes,
        ..
    } = outside;
    let watchers = watchers_of(host.alloc(), watch, error_out(host, lanes))?;
    match &doc {
        Some(doc) => run_in_file(rt, host, words, ports, watchers, doc),
        None => {
            let keeper = SureKeeper::new(host.alloc());
            Ok(run_over(rt, host, words, ports, watchers, keeper).status)
        }
    }
}
