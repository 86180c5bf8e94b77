//! A line that is written into room that was taken before, and sent.
ghost use Rattle.std.specs.Prelude.{◌≡◌, ◌≤◌, ◌+◌, [], ◌++◌, OnOk, OnErr, length, vec_capacity, vec_len};
ghost use Rattle.std.specs.Fmt.{decimal};
ghost use Rattle.std.specs.Io.KnownBytes.{Appends};
ghost use Rattle.io_edges.specs.Causes.{Rose};
ghost use Rattle.io_edges.specs.Sending.{SendsFront};

use io_edges::{Failed, Outbox, Sink};
use itoa::Buffer;

/// Writes a piece of a line behind what is there.
///
/// Memory: none.
pub fn append(line: &mut Vec<u8>, piece: &[u8])
    requires { vec_len line.old + length piece.now ≤ vec_capacity line.old }
    ensures items { line.new.items ≡ line.old.items ++ piece.now }
    ensures len { vec_len line.new ≡ vec_len line.old + length piece.now }
    ensures room { vec_capacity line.new ≡ vec_capacity line.old }
{
    for byte in piece {
        line.push_reserved(*byte);
    }
}

/// Writes a number behind what is there.
///
/// Memory: none.
pub fn append_number(line: &mut Vec<u8>, number: u64)
    requires { vec_len line.old + 40 ≤ vec_capacity line.old }
    ensures items { line.new.items ≡ line.old.items ++ decimal number }
    ensures len { vec_len line.new ≤ vec_len line.old + 40 }
    ensures room { vec_capacity line.new ≡ vec_capacity line.old }
{
    let mut buffer = Buffer::new();
    append(line, buffer.format(number).as_bytes());
}

/// Sends a line.
///
/// Errors: `Failed`, where the sink failed; a front of the line is then written.
pub fn send<O: Sink>(outbox: &mut Outbox, out: &mut O, line: &[u8]) -> Result<(), Failed>
    requires { outbox.old ≡ [] }
    ensures ok { OnOk result (Appends (O.written out.old) (O.written out.new) line.now) }
    ensures err { OnErr result (SendsFront line.now (O.written out.old) (O.written out.new)) }
    ensures later { O.faults out.old ≤ O.faults out.new }
    ensures cause { OnErr result (Rose (O.faults out.old) (O.faults out.new)) }
{
    let Ok(()) = outbox.put(out, line) else {
        return Err(Failed);
    };
    outbox.flush(out)
}
