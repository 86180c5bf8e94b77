//! `tells_names` follows the rule of names in docs/DEFINITIONS.md by hand. `finds_free_ids` has ids
//! of one and of 64 characters, also of two bytes each; `passes_numbers_that_give_one_text` has an
//! id whose numbers 2 to 9 give the texts that 22 to 29 give.

use crate::samples::name;
use cell_types::Name;
use name_rules::{free_name, is_name};
use std::alloc::{AllocError, Global};

// Texts, and whether they are good names.
static NAMES: [(&str, bool); 8] = [
    ("A", true),
    ("é2_", true),
    ("2A", false),
    ("_A", false),
    ("A b", false),
    ("", false),
    ("id", false),
    ("Id", true),
];

#[test]
fn tells_names(rt: HostRuntime) {
    for row in &NAMES {
        assert!(rt; is_name(row.0) == row.1, "at {}", row.0);
    }
}

// Wanted ids, the ids that are taken, and the free id.
static FREE: [(&str, &str, &str); 9] = [
    ("A", "", "A"),
    ("A", "B", "A"),
    ("A", "A", "A2"),
    ("A2", "A2", "A22"),
    ("A", "A A2 A3", "A4"),
    ("A", "A A3", "A2"),
    (
        "xxxxxxxxxxxxxxxxxxxxxxxxxxxxxxxxxxxxxxxxxxxxxxxxxxxxxxxxxxxxxxyz",
        "xxxxxxxxxxxxxxxxxxxxxxxxxxxxxxxxxxxxxxxxxxxxxxxxxxxxxxxxxxxxxxyz",
        "xxxxxxxxxxxxxxxxxxxxxxxxxxxxxxxxxxxxxxxxxxxxxxxxxxxxxxxxxxxxxxy2",
    ),
    (
        "éééééééééééééééééééééééééééééééééééééééééééééééééééééééééééééééè",
        "éééééééééééééééééééééééééééééééééééééééééééééééééééééééééééééééè",
        "ééééééééééééééééééééééééééééééééééééééééééééééééééééééééééééééé2",
    ),
    ("for", "for", "for2"),
];

// The names of a text, with spaces between them.
fn names(alloc: Global, text: &str) -> Result<Vec<Name>, AllocError> {
    let mut names = Vec::new(alloc);
    for part in text.split_whitespace() {
        names.push(name(alloc, part)?)?;
    }
    Ok(names)
}

fn is_made(name: &Result<Name, AllocError>, want: &str) -> bool {
    match name {
        Ok(name) => name.as_str() == want,
        Err(_) => false,
    }
}

fn is_free(
    alloc: Global,
    wanted: &Result<Name, AllocError>,
    taken: &Result<Vec<Name>, AllocError>,
    free: &str,
) -> bool {
    let Ok(wanted) = wanted else {
        return false;
    };
    let Ok(taken) = taken else {
        return false;
    };
    is_made(&free_name(alloc, wanted, taken), free)
}

fn finds(alloc: Global, wanted: &str, taken: &str, free: &str) -> bool {
    is_free(alloc, &name(alloc, wanted), &names(alloc, taken), free)
}

#[test]
fn finds_free_ids(rt: HostRuntime) {
    for row in &FREE {
        assert!(rt; finds(rt.alloc(), row.0, row.1, row.2), "not {}", row.2);
    }
}

// The text, and the front with each number of 10 to 29 behind it.
fn numbered(alloc: Global, text: &str, front: &str) -> Result<String, AllocError> {
    let mut all = String::from_str(alloc, text)?;
    for number in 10..30 {
        write!(all, " {front}{number}")?;
    }
    Ok(all)
}

// The wanted id, the front of ids that are taken, and the free id.
const WANTED: &str = "xxxxxxxxxxxxxxxxxxxxxxxxxxxxxxxxxxxxxxxxxxxxxxxxxxxxxxxxxxxxxx2y";

const FRONT: &str = "xxxxxxxxxxxxxxxxxxxxxxxxxxxxxxxxxxxxxxxxxxxxxxxxxxxxxxxxxxxxxx";

const PASSED: &str = "xxxxxxxxxxxxxxxxxxxxxxxxxxxxxxxxxxxxxxxxxxxxxxxxxxxxxxxxxxxxxx30";

fn is_passed(alloc: Global) -> bool {
    let Ok(taken) = numbered(alloc, WANTED, FRONT) else {
        return false;
    };
    finds(alloc, WANTED, taken.as_str(), PASSED)
}

#[test]
fn passes_numbers_that_give_one_text(rt: HostRuntime) {
    assert!(rt; is_passed(rt.alloc()), "not {PASSED}");
}
