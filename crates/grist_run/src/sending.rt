//! Lines that are sent, each in the frame of its session.
ghost use Rattle.std.specs.Prelude.{◌≡◌, ◌≤◌, [], ◌∷◌, ◌++◌, OnOk, OnErr, IsErrOf};
ghost use Rattle.io_edges.specs.Causes.{Rose};
ghost use Rattle.io_edges.specs.Sending.{Sends};
ghost use Rattle.grist_json.specs.Lines.{frame_text};
ghost use Rattle.bundle_core.specs.Frames.{framed};
ghost use Rattle.grist_run.specs.Sending.{SendsPart};

use cell_types::Name;
use grist_json::{Line, write_frame};
use io_edges::{Outbox, Sink};
use std::alloc::Global;

/// Why a line was not sent.
#[derive(Clone, Copy)]
pub(crate) enum SendEnd {
    WriteFault,
    NoMemory,
}

/// Sends the lines of a session, each in its frame and with a newline.
pub(crate) fn send_lines<O: Sink>(
    alloc: Global,
    outbox: &mut Outbox,
    out: &mut O,
    session: &Name,
    lines: &[Line],
) -> Result<(), SendEnd>
    ensures ok { OnOk result (Sends (outbox.old ++ framed session.now lines.now) outbox.new
        (O.written out.old) (O.written out.new)) }
    ensures err { OnErr result (SendsPart (outbox.old ++ framed session.now lines.now) outbox.new
        (O.written out.old) (O.written out.new)) }
    ensures later { O.faults out.old ≤ O.faults out.new }
    ensures fault { IsErrOf result SendEnd.WriteFault → Rose (O.faults out.old) (O.faults out.new) }
{
    for line in lines {
        if let Err(end) = send_line(alloc, outbox, out, session, line) {
            return Err(end);
        }
    }
    Ok(())
}

// Sends one line.
fn send_line<O: Sink>(
    alloc: Global,
    outbox: &mut Outbox,
    out: &mut O,
    session: &Name,
    line: &Line,
) -> Result<(), SendEnd>
    ensures ok { OnOk result
        (Sends (outbox.old ++ frame_text line.now session.now ++ 10 ∷ []) outbox.new
        (O.written out.old) (O.written out.new)) }
    ensures err { OnErr result
        (SendsPart (outbox.old ++ frame_text line.now session.now ++ 10 ∷ []) outbox.new
        (O.written out.old) (O.written out.new)) }
    ensures later { O.faults out.old ≤ O.faults out.new }
    ensures fault { IsErrOf result SendEnd.WriteFault → Rose (O.faults out.old) (O.faults out.new) }
{
    let Ok(frame) = write_frame(alloc, session, line) else {
        return Err(SendEnd::NoMemory);
    };
    put_line(outbox, out, frame.as_str().as_bytes())
}

// Puts a text and a newline behind what waits.
fn put_line<O: Sink>(outbox: &mut Outbox, out: &mut O, text: &[u8]) -> Result<(), SendEnd>
    ensures ok { OnOk result
        (Sends (outbox.old ++ text.now ++ 10 ∷ []) outbox.new (O.written out.old)
        (O.written out.new)) }
    ensures err { OnErr result
        (SendsPart (outbox.old ++ text.now ++ 10 ∷ []) outbox.new (O.written out.old)
        (O.written out.new)) }
    ensures later { O.faults out.old ≤ O.faults out.new }
    ensures fault { OnErr result (Rose (O.faults out.old) (O.faults out.new)) }
{
    let Ok(()) = outbox.put(out, text) else {
        return Err(SendEnd::WriteFault);
    };
    let Ok(()) = outbox.put(out, b"\n") else {
        return Err(SendEnd::WriteFault);
    };
    Ok(())
}
