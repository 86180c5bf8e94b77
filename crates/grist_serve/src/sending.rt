//! Lines that are sent, gathered to one write where they fit.
ghost use Rattle.std.specs.Prelude.{◌≡◌, ◌≤◌, [], ◌∷◌, ◌++◌, OnOk, OnErr};
ghost use Rattle.std.specs.Io.KnownBytes.{Appends};
ghost use Rattle.io_edges.specs.Causes.{Rose};
ghost use Rattle.io_edges.specs.Sending.{Sends, SendsFront};
ghost use Rattle.bundle_core.specs.Told.{with_newlines};

use grist_json::Line;
use io_edges::{Failed, Outbox, Sink};

/// Sends lines, each with a newline, and writes all of them.
pub(crate) fn send_lines<O: Sink>(
    outbox: &mut Outbox,
    out: &mut O,
    lines: &[Line],
) -> Result<(), Failed>
    requires { outbox.old ≡ [] }
    ensures ok { OnOk result
        (Appends (O.written out.old) (O.written out.new) (with_newlines lines.now)) }
    ensures err { OnErr result
        (SendsFront (with_newlines lines.now) (O.written out.old) (O.written out.new)) }
    ensures empty { outbox.new ≡ [] }
    ensures apart { O.incoming out.new ≡ O.incoming out.old }
    ensures later { O.faults out.old ≤ O.faults out.new }
    ensures cause { OnErr result (Rose (O.faults out.old) (O.faults out.new)) }
{
    for line in lines {
        if let Err(failed) = put_line(outbox, out, line.as_str().as_bytes()) {
            return Err(failed);
        }
    }
    outbox.flush(out)
}

/// Sends a line with a newline, and writes all of it.
pub(crate) fn send_line<O: Sink>(
    outbox: &mut Outbox,
    out: &mut O,
    line: &Line,
) -> Result<(), Failed>
    requires { outbox.old ≡ [] }
    ensures ok { OnOk result
        (Appends (O.written out.old) (O.written out.new) (with_newlines (line.now ∷ []))) }
    ensures err { OnErr result
        (SendsFront (with_newlines (line.now ∷ [])) (O.written out.old) (O.written out.new)) }
    ensures empty { outbox.new ≡ [] }
    ensures apart { O.incoming out.new ≡ O.incoming out.old }
    ensures later { O.faults out.old ≤ O.faults out.new }
    ensures cause { OnErr result (Rose (O.faults out.old) (O.faults out.new)) }
{
    if let Err(failed) = put_line(outbox, out, line.as_str().as_bytes()) {
        return Err(failed);
    }
    outbox.flush(out)
}

// Puts a text and a newline behind what waits.
fn put_line<O: Sink>(outbox: &mut Outbox, out: &mut O, text: &[u8]) -> Result<(), Failed>
    ensures ok { OnOk result (Sends (outbox.old ++ text.now ++ 10 ∷ []) outbox.new
        (O.written out.old) (O.written out.new)) }
    ensures err { OnErr result (SendsFront (outbox.old ++ text.now ++ 10 ∷ [])
        (O.written out.old) (O.written out.new)) }
    ensures lost { OnErr result (outbox.new ≡ []) }
    ensures apart { O.incoming out.new ≡ O.incoming out.old }
    ensures later { O.faults out.old ≤ O.faults out.new }
    ensures cause { OnErr result (Rose (O.faults out.old) (O.faults out.new)) }
{
    let Ok(()) = outbox.put(out, text) else {
        return Err(Failed);
    };
    let Ok(()) = outbox.put(out, b"\n") else {
        return Err(Failed);
    };
    Ok(())
}
