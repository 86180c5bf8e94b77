//! Which texts users may give to tables, columns and sessions.
ghost use Rattle.std.specs.Prelude.{◌≡◌, true, IfOk, length};
ghost use Rattle.std.specs.Str.{chars, bytes_eq};
ghost use Rattle.std.specs.List.{list_any, list_all};
ghost use Rattle.unicode_ident.specs.Ident.{is_xid_continue};
ghost use Rattle.name_rules.specs.NameStart.{starts_name};
ghost use Rattle.cell_types.specs.NameLength.{HasNameLength};
ghost use Rattle.cell_types.specs.NameRule.{is_reserved, has_name_characters, is_name};

use cell_types::{CellText, Name};
use std::alloc::{AllocError, Global};
use unicode_ident::{is_xid_continue, is_xid_start};

/// How many characters a name has at most.
pub(crate) const MAX_NAME_CHARACTERS: usize = 64;

/// The words of formulas, none of which is a name.
const RESERVED_WORDS: [&str; 37] = [
    "False", "None", "True", "and", "as", "assert", "async", "await", "break", "class", "continue",
    "def", "del", "elif", "else", "except", "finally", "for", "from", "global", "if", "import",
    "in", "is", "lambda", "nonlocal", "not", "or", "pass", "raise", "return", "try", "while",
    "with", "yield", "id", "rec",
];

fn starts_name(text: &str) -> bool
    ensures { result ≡ starts_name (chars text.now) }
{
    match text.chars().next() {
        Some(first) => is_xid_start(first),
        None => false,
    }
}

fn continues_name(text: &str) -> bool
    ensures { result ≡ list_all (λ c. is_xid_continue c) (chars text.now) }
{
    text.chars().all(|c| is_xid_continue(c))
}

// What may start a name may continue one, so all characters are tested alike.
fn has_name_characters(text: &str) -> bool
    ensures { result ≡ has_name_characters (chars text.now) }
{
    starts_name(text) && continues_name(text)
}

fn character_count(text: &str) -> usize
    ensures { result ≡ length (chars text.now) }
{
    text.chars().count()
}

// The text is one of the words.
fn is_among(words: &[&str], text: &str) -> bool
    ensures { result ≡ list_any (λ word. bytes_eq word.now text.now) words.now }
{
    for word in words {
        if *word == text {
            return true;
        }
    }
    false
}

// A word of formulas.
#[tactic(auto, unfolding(cell_types::specs::NameRule::is_reserved, cell_types::specs::NameRule::reserved_words))]
fn is_reserved(text: &str) -> bool
    ensures { result ≡ is_reserved text.now }
{
    let words: [&str; 37] = RESERVED_WORDS;
    is_among(words.as_slice(), text)
}

/// Whether a text may be the id of a table or a column, or the name of a session: characters of an
/// identifier, 64 at most, and no word of formulas.
///
/// Memory: none.
#[tactic(auto, unfolding(cell_types::specs::NameRule::is_name))]
pub fn is_name(text: &str) -> bool
    ensures value { result ≡ is_name text.now }
    ensures length { result ≡ true → HasNameLength text.now }
{
    has_name_characters(text) && character_count(text) <= MAX_NAME_CHARACTERS && !is_reserved(text)
}

/// The name that a text is.
///
/// Errors: out of memory.
pub fn name_of(alloc: Global, text: &str) -> Result<Name, AllocError>
    requires { is_name text.now ≡ true }
    ensures { IfOk result (λ n. n ≡ text.now) }
{
    if !is_name(text) {
        unreachable!()
    }
    Ok(Name::new(CellText::copy_of(alloc, text)?))
}
