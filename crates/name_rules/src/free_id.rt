//! The id that a new table or column gets beside those that are taken.
ghost use Rattle.std.specs.Prelude.{◌≡◌, ◌<◌, ◌≤◌, true, false, IfOk};
ghost use Rattle.cell_types.specs.NameRule.{is_name};
ghost use Rattle.name_rules.specs.FreeName.{is_taken, numbered, free_name, HasLeastNumber};

use crate::name_rule::MAX_NAME_CHARACTERS;
use cell_types::{CellText, Name};
use std::alloc::{AllocError, Global};

/// The id that a new table or column gets beside the taken ones: the wanted one where it is free,
/// otherwise the wanted one with the least number from 2 upwards that makes it free, as `A2`.
///
/// The wanted id loses characters at its end where the number would make it longer than 64.
///
/// Errors: out of memory alone; there is always a free number.
/// Memory: two texts at a time. Cost: a pass over the taken names for each number that is tried.
pub fn free_name(alloc: Global, wanted: &Name, taken: &[Name]) -> Result<Name, AllocError>
    ensures ok { IfOk result (λ name. name ≡ free_name taken.now wanted.now) }
    ensures free { IfOk result (λ name. is_taken taken.now name ≡ false) }
    ensures kept { is_taken taken.now wanted.now ≡ false
        → IfOk result (λ name. name ≡ wanted.now) }
    ensures least { is_taken taken.now wanted.now ≡ true
        → IfOk result (λ name. HasLeastNumber taken.now wanted.now name) }
    ensures name { is_name wanted.now ≡ true → IfOk result (λ name. is_name name ≡ true) }
{
    if !is_taken(taken, wanted.as_str()) {
        return wanted.clone();
    }
    let end = 12 * taken.len() as u64 + 102;
    for number in 2..end {
        let name = numbered(alloc, wanted, number)?;
        if !is_taken(taken, name.as_str()) {
            return Ok(name);
        }
    }
    unreachable!()
}

fn is_taken(taken: &[Name], text: &str) -> bool
    ensures { result ≡ is_taken taken.now text.now }
{
    taken.iter().any(|name| text == name.as_str())
}

// The wanted name with a number behind it.
fn numbered(alloc: Global, wanted: &Name, number: u64) -> Result<Name, AllocError>
    ensures spelled { IfOk result (λ name. name ≡ numbered wanted.now number) }
    ensures name { is_name wanted.now ≡ true → IfOk result (λ name. is_name name ≡ true) }
{
    let text = numbered_text(alloc, wanted.as_str(), number)?;
    Ok(Name::new(text))
}

// The text with a number behind it, cut at its end where 64 characters would be passed.
fn numbered_text(alloc: Global, text: &str, number: u64) -> Result<CellText, AllocError>
    ensures { IfOk result (λ made. made ≡ numbered text.now number) }
{
    let digits = format!(in alloc; "{number}")?;
    let room = MAX_NAME_CHARACTERS - digits.len();
    let mut made: String = text.chars().take(room).collect(alloc)?;
    made.push_str(digits.as_str())?;
    let name = CellText::from_string(made)?;
    Ok(name)
}
