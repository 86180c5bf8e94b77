//! Row ids as they were written.

ghost use Rattle.std.specs.Prelude.{◌≡◌};
ghost use Rattle.cell_types.specs.Reference.{row_number};

/// The row that a number is.
///
/// Memory: none.
pub fn row_number(number: i64) -> Option<u32>
    ensures { result ≡ row_number number }
{
    match u32::try_from(number) {
        Ok(row) => Some(row),
        Err(_) => None,
    }
}
