//! Division that rounds down.

ghost use Rattle.std.specs.Prelude.{◌≡◌, ◌↔◌, IsTrue, SomeIff, FitsSigned};
ghost use Rattle.std.specs.Int.{IsNonZero, w64};
ghost use Rattle.value_ops.specs.Division.{floored_quotient, floored_remainder, LeansAway, DivisionLaw};

/// A dividend is its quotient times the divisor, with the remainder; and the remainder lies from 0
/// on toward the divisor.
pub fn division_law()
    ensures { DivisionLaw }
{}

// The quotient, where 64 bits hold it: they do not hold that of the least number by -1 alone.
pub(crate) fn quotient(dividend: i64, divisor: i64) -> Option<i64>
    requires { IsNonZero w64 divisor }
    ensures { SomeIff result (FitsSigned w64 (floored_quotient dividend divisor))
        (floored_quotient dividend divisor) }
{
    let toward_zero = dividend.checked_div(divisor)?;
    if leans_away(dividend.wrapping_rem(divisor), divisor) {
        toward_zero.checked_sub(1)
    } else {
        Some(toward_zero)
    }
}

pub(crate) fn remainder(dividend: i64, divisor: i64) -> i64
    requires { IsNonZero w64 divisor }
    ensures { result ≡ floored_remainder dividend divisor }
{
    let rest = dividend.wrapping_rem(divisor);
    if leans_away(rest, divisor) {
        rest + divisor
    } else {
        rest
    }
}

// Whether what the division toward zero leaves lies on the other side of 0 than the divisor: the
// quotient was then rounded up.
fn leans_away(rest: i64, divisor: i64) -> bool
    ensures { IsTrue result ↔ LeansAway rest divisor }
{
    (rest < 0 && divisor > 0) || (rest > 0 && divisor < 0)
}
