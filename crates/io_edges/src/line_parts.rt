//! How one line is taken from the bytes that are ahead.
ghost use Rattle.std.specs.Prelude.{◌≡◌, ◌≢◌, ◌<◌, ◌≤◌, ℕ, ◌++◌, length, slice_index, drop, IfOk, OnErr};
ghost use Rattle.io_edges.specs.Lines.{kept_of};
ghost use Rattle.io_edges.specs.Reading.{TakesPart};

use std::alloc::AllocError;

// How much is kept of a line: one byte more than the longest line has, so that a longer one shows.
const KEPT: usize = 1_048_577;

// The place of the first newline, or the length where there is none.
fn line_len(bytes: &[u8]) -> usize
    ensures within { result ≤ length bytes.now }
    ensures before { (k : ℕ) → k < result → slice_index bytes.now k ≢ 10 }
    ensures found { result < length bytes.now → slice_index bytes.now result ≡ 10 }
{
    for (i, byte) in bytes.iter().enumerate() {
        if *byte == b'\n' {
            return i;
        }
    }
    bytes.len()
}

// Adds to the line what it still has room for.
fn keep(line: &mut Vec<u8>, part: &[u8]) -> Result<(), AllocError>
    requires { length line.old.items ≤ 1048577 }
    ensures ok { IfOk result (λ _. line.new.items ≡ kept_of (line.old.items ++ part.now)) }
    ensures bound { length line.new.items ≤ 1048577 }
{
    let room = KEPT - line.len();
    let count = room.min(part.len());
    line.extend_from_slice(&part[..count])?;
    Ok(())
}

// Takes the rest of a line from the bytes that are ahead, or all of them where no newline is there.
// Gives how many bytes it took, and whether a newline was the last of them.
pub(crate) fn take_part(ahead: &[u8], line: &mut Vec<u8>) -> Result<(usize, bool), AllocError>
    requires { length line.old.items ≤ 1048577 }
    ensures part { IfOk result
        (λ r. TakesPart ahead.now (drop r.0 ahead.now) line.old.items line.new.items r.1) }
    ensures within { IfOk result (λ r. r.0 ≤ length ahead.now) }
    ensures bound { length line.new.items ≤ 1048577 }
{
    let len = line_len(ahead);
    keep(line, &ahead[..len])?;
    if len < ahead.len() {
        Ok((len + 1, true))
    } else {
        Ok((len, false))
    }
}
