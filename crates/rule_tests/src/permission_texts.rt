//! Permission texts.
//!
//! `permission_texts_say_what_they_allow_and_deny` has the forms, and texts that cannot be read.

use acl_formula::{Perm, PermFlags, PermSet, read_permissions};

static PERMS: [(Perm, char); 5] = [
    (Perm::C, 'C'),
    (Perm::R, 'R'),
    (Perm::U, 'U'),
    (Perm::D, 'D'),
    (Perm::S, 'S'),
];

// Whether the set has the permissions of these letters, and no others.
fn has_letters(flags: &PermFlags, letters: &str) -> bool {
    for row in &PERMS {
        if flags.has(row.0) != letters.contains(row.1) {
            return false;
        }
    }
    true
}

fn says(read: Option<PermSet>, allowed: &str, denied: &str) -> bool {
    match read {
        Some(set) => has_letters(&set.allowed, allowed) && has_letters(&set.denied, denied),
        None => allowed == "?",
    }
}

// A text, what it allows, and what it denies; `?` where it cannot be read.
static TEXTS: [(&str, &str, &str); 17] = [
    ("", "", ""),
    ("all", "CRUDS", ""),
    ("none", "", "CRUDS"),
    ("+R", "R", ""),
    ("-R", "", "R"),
    ("+CU-D", "CU", "D"),
    ("-D+UC", "UC", "D"),
    ("+R+R-SS", "R", "S"),
    ("+R-R", "?", ""),
    ("+", "?", ""),
    ("R", "?", ""),
    ("+-R", "?", ""),
    ("+R-", "?", ""),
    ("+r", "?", ""),
    ("all-", "?", ""),
    ("ALL", "?", ""),
    ("+R ", "?", ""),
];

#[test]
fn permission_texts_say_what_they_allow_and_deny(rt: HostRuntime) {
    for row in &TEXTS {
        assert!(rt;
            says(read_permissions(row.0), row.1, row.2),
            "not {}",
            row.0
        );
    }
}
