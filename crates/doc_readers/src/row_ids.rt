//! Rows among rows that ascend.

ghost use Rattle.std.specs.Prelude.{◌≡◌};
ghost use Rattle.doc_model.specs.Rows.{IsAscending, has};

/// Whether the row stands among the rows.
///
/// Memory: none. Cost: the logarithm of their number.
pub fn holds_row(rows: &[u32], row: u32) -> bool
    requires { IsAscending rows.now }
    ensures { result ≡ has rows.now row }
{
    rows.binary_search(&row).is_ok()
}
