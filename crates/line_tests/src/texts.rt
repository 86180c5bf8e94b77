//! Made texts and lines, beside the wanted ones.

use grist_json::Line;
use std::alloc::AllocError;

/// Whether the text was made, and is the wanted one.
pub fn is_text(text: &Result<String, AllocError>, want: &str) -> bool {
    match text {
        Ok(text) => text.as_str() == want,
        Err(_) => false,
    }
}

/// Whether the line was made, and is the wanted one.
pub fn is_line(line: &Result<Line, AllocError>, want: &str) -> bool {
    match line {
        Ok(line) => line.as_str() == want,
        Err(_) => false,
    }
}
