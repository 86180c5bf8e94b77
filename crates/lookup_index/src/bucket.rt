//! The bucket of a value.

ghost use Rattle.std.specs.Prelude.{◌≡◌, ◌<◌, ◌^◌, slice_get};
ghost use Rattle.cell_types.specs.Item.{value_of_item};
ghost use Rattle.lookup_index.specs.Buckets.{bucket_of, number_bucket, part_buckets, text_bucket};

use cell_types::{CellItem, CellValue};

// A prime just below 2^32, by which the bytes read so far are taken.
const PRIME: u64 = 4_294_967_291;

// The base in which bytes are digits.
const BASE: u64 = 257;

fn number_bucket(number: i64) -> u64
    ensures { result ≡ number_bucket number }
{
    if number < 0 {
        return (-(number + 1)) as u64;
    }
    number as u64
}

fn text_bucket(text: &str) -> u64
    ensures { result ≡ text_bucket 0 text.now }
{
    let mut bucket = 0;
    for byte in text.bytes() {
        bucket = bucket % PRIME * BASE + u64::from(byte);
    }
    bucket
}

/// The bucket of a value: equal values have one, and so have a record and the number of its row.
///
/// Memory: none. Cost: the length of a text.
pub fn bucket_of(value: &CellValue) -> u64
    ensures { result ≡ bucket_of value.now }
{
    match value {
        CellValue::Int(number) | CellValue::Date(number) => number_bucket(*number),
        CellValue::Bool(truth) => u64::from(*truth),
        CellValue::Text(text) => text_bucket(text.as_str()),
        CellValue::Rec(row) => u64::from(row.row),
        CellValue::RecSet(set) => set.rows.len() as u64,
        CellValue::List(items) => items.len() as u64,
        CellValue::Null | CellValue::Err(_) | CellValue::Censored => 0,
    }
}

fn item_bucket(item: &CellItem) -> u64
    ensures { result ≡ bucket_of (value_of_item item.now) }
{
    match item {
        CellItem::Int(number) | CellItem::Date(number) => number_bucket(*number),
        CellItem::Bool(truth) => u64::from(*truth),
        CellItem::Text(text) => text_bucket(text.as_str()),
        CellItem::Rec(row) => u64::from(row.row),
        CellItem::Null => 0,
    }
}

/// The bucket of the part at an index, of a list or of a set of records; nothing past the last one,
/// and nothing of other values.
///
/// Memory: none. Cost: the length of a text.
pub fn part_bucket(value: &CellValue, index: usize) -> Option<u64>
    ensures { result ≡ slice_get (part_buckets value.now) index }
{
    match value {
        CellValue::List(items) => items.as_slice().get(index).map(|item| item_bucket(item)),
        CellValue::RecSet(set) => set.rows.as_slice().get(index).map(|row| u64::from(*row)),
        _ => None,
    }
}
