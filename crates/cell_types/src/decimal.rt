//! Texts that say a whole number.

ghost use Rattle.std.specs.Prelude.{◌≡◌};
ghost use Rattle.std.specs.List.{list_all};
ghost use Rattle.cell_types.specs.Decimal.{is_digit, has_decimal_form, decimal_of};

/// The number that a decimal text says: an optional minus and 1 to 19 digits, with a value that 64
/// bits hold. `007` and `-0` are such texts.
///
/// Memory: none.
#[tactic(auto, unfolding(crate::specs::Decimal::decimal_of))]
pub fn decimal_value(text: &str) -> Option<i64>
    ensures { result ≡ decimal_of text.now }
{
    if !has_decimal_form(text.as_bytes()) {
        return None;
    }
    text.parse::<i64>().ok()
}

#[tactic(auto, unfolding(crate::specs::Decimal::has_decimal_form))]
fn has_decimal_form(text: &[u8]) -> bool
    ensures { result ≡ has_decimal_form text.now }
{
    let digits = if !text.is_empty() && text[0] == b'-' {
        &text[1..]
    } else {
        text
    };
    are_digits(digits) && !digits.is_empty() && digits.len() <= 19
}

fn are_digits(text: &[u8]) -> bool
    ensures { result ≡ list_all is_digit text.now }
{
    text.iter().all(|byte| 48 <= *byte && *byte <= 57)
}
