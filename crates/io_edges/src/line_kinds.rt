//! Blank lines, and lines that are too long.

ghost use Rattle.std.specs.Prelude.{◌≡◌};
ghost use Rattle.io_edges.specs.Lines.{is_blank, is_long, is_space};

/// How many bytes a line has at most, its newline not counted.
const MAX_LINE_BYTES: usize = 1_048_576;

fn is_space(byte: u8) -> bool
    ensures { result ≡ is_space byte }
{
    byte == b' ' || byte == b'\t' || byte == b'\r' || byte == b'\n'
}

/// Whether a line is white space alone, which is passed over.
pub fn is_blank(line: &[u8]) -> bool
    ensures { result ≡ is_blank line.now }
{
    line.iter().all(|byte| is_space(*byte))
}

/// Whether a line has more bytes than a line may have: 1,048,576, its newline not counted.
pub fn is_long(line: &[u8]) -> bool
    ensures { result ≡ is_long line.now }
{
    line.len() > MAX_LINE_BYTES
}
