//! Whole numbers in JSON.
ghost use Rattle.std.specs.Prelude.{◌≡◌};
ghost use Rattle.serde_json.specs.View.{view};
ghost use Rattle.action_lines.specs.Numbers.{int_from, id_from, row_from};

use serde_json::Value;

/// A whole number of 64 bits with its sign.
pub(crate) fn int_of(value: &Value) -> Option<i64>
    ensures { result ≡ int_from (view value.now) }
{
    match value.as_u64() {
        Some(number) => i64::try_from(number).ok(),
        None => match value.as_i64() {
            Some(number) if number < 0 => Some(number),
            _ => None,
        },
    }
}

/// A whole number from 0 that fits 64 bits with a sign.
pub fn id_of(value: &Value) -> Option<i64>
    ensures { result ≡ id_from (view value.now) }
{
    match value.as_u64() {
        Some(number) => i64::try_from(number).ok(),
        None => None,
    }
}

/// A row id: a whole number from 0 that fits 32 bits.
pub fn row_of(value: &Value) -> Option<u32>
    ensures { result ≡ row_from (view value.now) }
{
    match value.as_u64() {
        Some(number) => u32::try_from(number).ok(),
        None => None,
    }
}
