//! Numbers of bundles and records.
ghost use Rattle.std.specs.Prelude.{◌≡◌};
ghost use Rattle.serde_json.specs.View.{view};
ghost use Rattle.grist_json.specs.Reading.{whole_from};

use serde_json::Value;

/// A whole number from 0 that fits 64 bits with a sign.
pub fn whole_of(value: &Value) -> Option<u64>
    ensures { result ≡ whole_from (view value.now) }
{
    match value.as_u64() {
        Some(number) if number < 1 << 63 => Some(number),
        _ => None,
    }
}
