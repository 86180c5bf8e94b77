//! Texts in pieces that follow one another, compared where they lie.

ghost use Rattle.std.specs.Prelude.{◌≡◌, ◌<◌, ◌≤◌, ◌+◌, length, get_or, bytes_eq, drop};
ghost use Rattle.acl_formula.specs.Desk.{joined, piece_of};
ghost use Rattle.acl_formula.specs.Pieces.{is_less, begins, is_within};

use crate::operand::Part;

fn piece_of<'a>(part: Part<'a>) -> &'a str
    ensures { result.now ≡ piece_of part.entry }
{
    match part {
        Part::Piece(text) => text,
        _ => "",
    }
}

// The byte at a place of the text.
pub(crate) fn byte_at(pieces: &[Part<'_>], place: usize) -> u8
    requires { place < length (joined pieces.now) }
    ensures { result ≡ get_or (joined pieces.now) place 0 }
{
    let mut left = place;
    for part in pieces {
        let piece = piece_of(*part);
        if left < piece.len() {
            return piece.as_bytes()[left];
        }
        left -= piece.len();
    }
    unreachable!()
}

// Whether two texts are one.
pub(crate) fn are_same(
    left: &[Part<'_>],
    left_len: usize,
    right: &[Part<'_>],
    right_len: usize,
) -> bool
    requires left { left_len ≡ length (joined left.now) }
    requires right { right_len ≡ length (joined right.now) }
    ensures { result ≡ bytes_eq (joined left.now) (joined right.now) }
{
    if left_len != right_len {
        return false;
    }
    for place in 0..left_len {
        if byte_at(left, place) != byte_at(right, place) {
            return false;
        }
    }
    true
}

// Whether the left text stands before the right one.
pub(crate) fn is_less(
    left: &[Part<'_>],
    left_len: usize,
    right: &[Part<'_>],
    right_len: usize,
) -> bool
    requires left { left_len ≡ length (joined left.now) }
    requires right { right_len ≡ length (joined right.now) }
    ensures { result ≡ is_less (joined left.now) (joined right.now) }
{
    for place in 0..left_len {
        if place == right_len {
            return false;
        }
        let (a, b) = (byte_at(left, place), byte_at(right, place));
        if a != b {
            return a < b;
        }
    }
    left_len < right_len
}

// Whether the part stands in the text from that place on.
pub(crate) fn stands_at(
    part: &[Part<'_>],
    part_len: usize,
    text: &[Part<'_>],
    text_len: usize,
    from: usize,
) -> bool
    requires part { part_len ≡ length (joined part.now) }
    requires text { text_len ≡ length (joined text.now) }
    requires from { from ≤ text_len }
    ensures { result ≡ begins (joined part.now) (drop from (joined text.now)) }
{
    if part_len > text_len - from {
        return false;
    }
    for place in 0..part_len {
        if byte_at(part, place) != byte_at(text, from + place) {
            return false;
        }
    }
    true
}

// Whether the part stands in the text.
pub(crate) fn is_within(
    part: &[Part<'_>],
    part_len: usize,
    text: &[Part<'_>],
    text_len: usize,
) -> bool
    requires part { part_len ≡ length (joined part.now) }
    requires text { text_len ≡ length (joined text.now) }
    ensures { result ≡ is_within (joined part.now) (joined text.now) }
{
    for from in 0..text_len {
        if stands_at(part, part_len, text, text_len, from) {
            return true;
        }
    }
    stands_at(part, part_len, text, text_len, text_len)
}
