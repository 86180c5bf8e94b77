//! Made texts, beside the wanted ones.

use std::alloc::AllocError;

/// Whether the text was made, and is the wanted one.
pub fn is_text(text: &Result<String, AllocError>, want: &str) -> bool {
    match text {
        Ok(text) => text.as_str() == want,
        Err(_) => false,
    }
}
