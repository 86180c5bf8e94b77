//! Rules' formulas, by tables of what they come to for an editor and two rows. What numbers, texts
//! and lists come to is what Python 3 gives; the rest is from the users' page on rules.
//!
//! `kinds_meet_as_the_page_says` has each operator at each pair of kinds,
//! `rules_come_to_what_they_say` the rest of the language, its bounds and texts that are no
//! formulas, `absent_rows_fail` rules that ask for a row that is not there,
//! `mentions_stand_once_in_order` what a formula asks for.

use crate::samples::{Cell, Sample, editor, row};
use acl_formula::{AttributeRow, Mention, RuleTruth, UserInfo, eval_rule, parse_rule};
use formula_parse::ParseFault;
use std::alloc::{AllocError, Global};

// A letter for what a rule comes to: true, false, it fails, no formula, no memory.
fn letter(truth: RuleTruth) -> char {
    match truth {
        RuleTruth::True => 't',
        RuleTruth::False => 'f',
        RuleTruth::Fails => 'x',
    }
}

#[derive(Drop)]
struct Asked {
    user: UserInfo,
    before: AttributeRow,
    after: AttributeRow,
}

fn given(alloc: Global) -> Result<Asked, AllocError> {
    let user = editor(alloc)?;
    let before = row(alloc, 7, &BEFORE)?;
    let after = row(alloc, 8, &[("I", Sample::Int(4))])?;
    Ok(Asked {
        user,
        before,
        after,
    })
}

fn outcome(alloc: Global, asked: &Asked, rule: &str) -> char {
    match parse_rule(alloc, rule) {
        Ok(tree) => {
            letter(eval_rule(&tree, &asked.user, Some(&asked.before), Some(&asked.after)))
        }
        Err(ParseFault::Syntax { .. }) => '-',
        Err(ParseFault::NoMemory) => '!',
    }
}

fn comes_to(alloc: Global, asked: &Asked, rule: &str, want: char) -> bool {
    outcome(alloc, asked, rule) == want
}

// One cell of each kind, named by its first letter (`L` is a list, `X` an error), and large ones.
static BEFORE: [Cell; 14] = [
    ("N", Sample::Null),
    ("I", Sample::Int(3)),
    ("B", Sample::Bool(true)),
    ("T", Sample::Text("abc")),
    ("D", Sample::Date(86400)),
    ("R", Sample::Rec(2)),
    ("S", Sample::RecSet(&[2, 3])),
    ("L", Sample::List(1, "abc")),
    ("C", Sample::Censored),
    ("X", Sample::Err),
    ("M", Sample::Int(i64::MAX)),
    ("Most", Sample::Nulls(10000)),
    ("Long", Sample::Nulls(10001)),
    ("Full", Sample::Letters(65536)),
];

static LEFTS: [[&str; 5]; 2] = [["N", "I", "B", "T", "D"], ["R", "S", "L", "C", "X"]];

// The letters of each operator: a word for each left operand, a letter for each right one.
static MEETINGS: [(&str, [&str; 2]); 16] = [
    (
        "==",
        [
            "tffffffffx ftfffffffx fftffffffx ffftfffffx fffftffffx",
            "ffffftfffx fffffftffx ffffffftfx fffffffffx xxxxxxxxxx",
        ],
    ),
    (
        "!=",
        [
            "fttttttttx tftttttttx ttfttttttx tttftttttx ttttfttttx",
            "tttttftttx ttttttfttx tttttttftx tttttttttx xxxxxxxxxx",
        ],
    ),
    (
        "<",
        [
            "xxxxxxxxxx xffxxxxxxx xtfxxxxxxx xxxfxxxxxx xxxxfxxxxx",
            "xxxxxxxxxx xxxxxxxxxx xxxxxxxxxx xxxxxxxxxx xxxxxxxxxx",
        ],
    ),
    (
        "<=",
        [
            "xxxxxxxxxx xtfxxxxxxx xttxxxxxxx xxxtxxxxxx xxxxtxxxxx",
            "xxxxxxxxxx xxxxxxxxxx xxxxxxxxxx xxxxxxxxxx xxxxxxxxxx",
        ],
    ),
    (
        ">",
        [
            "xxxxxxxxxx xftxxxxxxx xffxxxxxxx xxxfxxxxxx xxxxfxxxxx",
            "xxxxxxxxxx xxxxxxxxxx xxxxxxxxxx xxxxxxxxxx xxxxxxxxxx",
        ],
    ),
    (
        ">=",
        [
            "xxxxxxxxxx xttxxxxxxx xftxxxxxxx xxxtxxxxxx xxxxtxxxxx",
            "xxxxxxxxxx xxxxxxxxxx xxxxxxxxxx xxxxxxxxxx xxxxxxxxxx",
        ],
    ),
    (
        "in",
        [
            "xxxxxxffxx xxxxxxtfxx xxxxxxftxx xxxtxxftxx xxxxxxffxx",
            "xxxxxxtfxx xxxxxxffxx xxxxxxffxx xxxxxxffxx xxxxxxxxxx",
        ],
    ),
    (
        "not in",
        [
            "xxxxxxttxx xxxxxxftxx xxxxxxtfxx xxxfxxtfxx xxxxxxttxx",
            "xxxxxxftxx xxxxxxttxx xxxxxxttxx xxxxxxttxx xxxxxxxxxx",
        ],
    ),
    (
        "is",
        [
            "tffffffffx ftfffffffx fftffffffx ffftfffffx fffftffffx",
            "ffffftfffx fffffftffx ffffffftfx fffffffffx xxxxxxxxxx",
        ],
    ),
    (
        "is not",
        [
            "fttttttttx tftttttttx ttfttttttx tttftttttx ttttfttttx",
            "tttttftttx ttttttfttx tttttttftx tttttttttx xxxxxxxxxx",
        ],
    ),
    (
        "+",
        [
            "xxxxxxxxxx xttxxxxxxx xttxxxxxxx xxxtxxxxxx xxxxxxxxxx",
            "xxxxxxxxxx xxxxxxxxxx xxxxxxxtxx xxxxxxxxxx xxxxxxxxxx",
        ],
    ),
    (
        "-",
        [
            "xxxxxxxxxx xftxxxxxxx xtfxxxxxxx xxxxxxxxxx xxxxxxxxxx",
            "xxxxxxxxxx xxxxxxxxxx xxxxxxxxxx xxxxxxxxxx xxxxxxxxxx",
        ],
    ),
    (
        "*",
        [
            "xxxxxxxxxx xttxxxxxxx xttxxxxxxx xxxxxxxxxx xxxxxxxxxx",
            "xxxxxxxxxx xxxxxxxxxx xxxxxxxxxx xxxxxxxxxx xxxxxxxxxx",
        ],
    ),
    (
        "%",
        [
            "xxxxxxxxxx xffxxxxxxx xtfxxxxxxx xxxxxxxxxx xxxxxxxxxx",
            "xxxxxxxxxx xxxxxxxxxx xxxxxxxxxx xxxxxxxxxx xxxxxxxxxx",
        ],
    ),
    (
        "or",
        [
            "fttttttttx tttttttttt tttttttttt tttttttttt tttttttttt",
            "tttttttttt tttttttttt tttttttttt tttttttttt xxxxxxxxxx",
        ],
    ),
    (
        "and",
        [
            "ffffffffff fttttttttx fttttttttx fttttttttx fttttttttx",
            "fttttttttx fttttttttx fttttttttx fttttttttx xxxxxxxxxx",
        ],
    ),
];

fn meets(
    alloc: Global,
    asked: &Asked,
    left: &str,
    operator: &str,
    right: char,
    want: char,
) -> bool {
    match format!(in alloc; "rec.{left} {operator} rec.{right}") {
        Ok(rule) => comes_to(alloc, asked, rule.as_str(), want),
        Err(_) => false,
    }
}

// Whether a left operand comes to these letters, one beside each kind.
fn is_row(alloc: Global, asked: &Asked, left: &str, operator: &str, row: &str) -> bool {
    let mut letters = row.chars();
    for right in "NIBTDRSLCX".chars() {
        let Some(want) = letters.next() else {
            return false;
        };
        if !meets(alloc, asked, left, operator, right, want) {
            return false;
        }
    }
    letters.next().is_none()
}

fn are_rows(alloc: Global, asked: &Asked, lefts: &[&str; 5], operator: &str, rows: &str) -> bool {
    let mut rows = rows.split(' ');
    for left in lefts {
        let Some(row) = rows.next() else {
            return false;
        };
        if !is_row(alloc, asked, left, operator, row) {
            return false;
        }
    }
    rows.next().is_none()
}

fn are_meetings(alloc: Global, operator: &str, rows: &[&str; 2]) -> bool {
    let Ok(asked) = given(alloc) else {
        return false;
    };
    are_rows(alloc, &asked, &LEFTS[0], operator, rows[0])
        && are_rows(alloc, &asked, &LEFTS[1], operator, rows[1])
}

#[test]
fn kinds_meet_as_the_page_says(rt: HostRuntime) {
    for row in &MEETINGS {
        assert!(rt; are_meetings(rt.alloc(), row.0, &row.1), "not {}", row.0);
    }
}

static RULES: [(&str, char); 88] = [
    ("", 't'),
    (" \t", 't'),
    ("user.Access == EDITOR", 't'),
    ("user.Access == OWNER", 'f'),
    ("user.Access in [OWNER, EDITOR]", 't'),
    ("VIEWER not in [OWNER, EDITOR]", 't'),
    (
        "user.Email == 'ed@x.org' and user.Name == 'Ed' and user.UserID == 2",
        't',
    ),
    ("user.P.City == 'Rome' and user.P.id == 5", 't'),
    ("user.Q.City is None and user.Q.id is None", 't'),
    ("user.P", 'x'),
    ("user.P.Nope", 'x'),
    ("user.P.Bad", 'x'),
    ("user.Nope.X", 'x'),
    ("user.Access.X", 'x'),
    ("user.Nope", 'x'),
    ("rec.id == 7 and newRec.id == 8", 't'),
    ("newRec.I == rec.I + 1", 't'),
    ("rec.Nope", 'x'),
    ("newRec.N", 'x'),
    ("user.Email + '!' == 'ed@' + 'x.' + 'org!'", 't'),
    ("'x.o' + 'rg' in 'mail: ' + user.Email", 't'),
    ("'go' + 'rg' in 'mail: ' + user.Email", 'f'),
    ("'' + '' in ''", 't'),
    ("'a' + 'b' < 'a' + 'c'", 't'),
    ("'a' + 'b' < 'a' + ''", 'f'),
    ("'a' + '' < 'ab'", 't'),
    ("('' or user.Name) + 'dy' == 'Eddy'", 't'),
    ("('a' + 'b') + ('c' + '') == rec.T", 't'),
    ("'' + ''", 'f'),
    ("'a' + 'b' is 'ab'", 't'),
    ("rec.Full + '' == rec.Full", 't'),
    ("rec.Full + 'a'", 'x'),
    ("[1, 2] + [3] == [1, 2, 3]", 't'),
    ("[1, 2] == [1]", 'f'),
    ("[1, 2] == [1, 3]", 'f'),
    ("[1, 'a'] == [True, 'a']", 't'),
    ("[1] is [True]", 't'),
    ("rec.L + ['a' + 'b'] == [1, 'abc', 'ab']", 't'),
    ("rec.L + rec.L == [1, 'abc', 1] + ['ab' + 'c']", 't'),
    (
        "[rec.D, rec.R, None, False] == [rec.D, rec.R, None, 0]",
        't',
    ),
    ("'ab' in ['x' + 'y', 'a' + 'b', 3]", 't'),
    ("'a' + 'c' in ['x' + 'y', 'a' + 'b', 3]", 'f'),
    ("'a' + 'bc' in [0] + rec.L", 't'),
    ("rec.L in [1, 2]", 'f'),
    ("rec.R in rec.S and 2 in rec.S and 1 not in rec.S", 't'),
    ("[]", 'f'),
    ("[] or [0]", 't'),
    ("[[1]]", 'x'),
    ("[rec.L]", 'x'),
    ("[rec.S]", 'x'),
    ("[rec.C]", 'x'),
    ("[1, rec.X]", 'x'),
    ("[1] < [2]", 'x'),
    ("rec.Most", 't'),
    ("rec.Long", 'x'),
    ("rec.Most + [1]", 'x'),
    ("rec.Most + [1] != rec.Long", 't'),
    ("rec.Most + [None] == rec.Long", 't'),
    ("rec.M + 1", 'x'),
    ("-rec.M - 1 < 0", 't'),
    ("-(-rec.M - 1)", 'x'),
    ("9223372036854775807 == rec.M", 't'),
    ("7 % -2 == -1 and -7 % 2 == 1", 't'),
    ("1 % 0", 'x'),
    ("2 * 3 - 4 == 2", 't'),
    ("-True == -1", 't'),
    ("-'a'", 'x'),
    ("-[1]", 'x'),
    ("not None and not 0 and not '' and not []", 't'),
    ("not rec.D or not rec.C", 'f'),
    ("True or rec.X", 't'),
    ("False and rec.X", 'f'),
    ("rec.X or True", 'x'),
    ("rec.D == 86400", 'f'),
    ("rec.D < 86401", 'x'),
    ("rec.D >= rec.D and not rec.D < rec.D", 't'),
    ("rec", '-'),
    ("rec.", '-'),
    ("user", '-'),
    ("nope == 1", '-'),
    ("rec.A.B", '-'),
    ("1 // 2", '-'),
    ("$A", '-'),
    ("1 if 2 else 3", '-'),
    ("len(rec.T)", '-'),
    ("T.all", '-'),
    ("rec.A ==", '-'),
    ("'a", '-'),
];

// The same text so many times, with another in front and a third behind.
fn repeated(
    alloc: Global,
    front: &str,
    text: &str,
    count: usize,
    back: &str,
) -> Result<String, AllocError> {
    let mut all = String::new(alloc);
    all.push_str(front)?;
    for _ in 0..count {
        all.push_str(text)?;
    }
    all.push_str(back)?;
    Ok(all)
}

// A text in front, one that is repeated, how often, one behind, and what the whole comes to.
type Bound = (&'static str, &'static str, usize, &'static str, char);

// 4,096 bytes and one more; 256 constructs in one another and one more; large desks.
static BOUNDS: [Bound; 8] = [
    ("1", " ", 4095, "", 't'),
    ("1", " ", 4096, "", '-'),
    ("1 == ", "-", 254, "1", 't'),
    ("1 == ", "-", 255, "1", '-'),
    ("'aaaaaaaaaaaaaaaaaaaaa' == 'a'", " + 'a'", 20, "", 't'),
    ("1 in [0", ", 0", 100, "]", 'f'),
    ("1 in [0", ", 0", 1300, ", 1]", 't'),
    ("rec.Full", " + ''", 200, " == rec.Full", 't'),
];

fn is_bound(alloc: Global, asked: &Asked, row: &Bound) -> bool {
    match repeated(alloc, row.0, row.1, row.2, row.3) {
        Ok(rule) => comes_to(alloc, asked, rule.as_str(), row.4),
        Err(_) => false,
    }
}

#[test]
fn rules_come_to_what_they_say(rt: HostRuntime) {
    match given(rt.alloc()) {
        Ok(asked) => {
            for row in &RULES {
                assert!(rt; comes_to(rt.alloc(), &asked, row.0, row.1), "not {}", row.0);
            }
            for row in &BOUNDS {
                assert!(rt; is_bound(rt.alloc(), &asked, row), "not {}", row.1);
            }
        }
        Err(_) => assert!(rt; false, "no memory"),
    }
}

fn without_rows(alloc: Global, rule: &str) -> Result<char, AllocError> {
    let user = editor(alloc)?;
    match parse_rule(alloc, rule) {
        Ok(tree) => Ok(letter(eval_rule::<AttributeRow>(&tree, &user, None, None))),
        Err(_) => Ok('-'),
    }
}

#[test]
fn absent_rows_fail(rt: HostRuntime) {
    assert!(rt; matches!(without_rows(rt.alloc(), "rec.id"), Ok('x')));
    assert!(rt; matches!(without_rows(rt.alloc(), "newRec.I == 4"), Ok('x')));
    assert!(rt; matches!(without_rows(rt.alloc(), "True or rec.id"), Ok('t')));
}

fn push_mention(out: &mut String, mention: &Mention) -> Result<(), AllocError> {
    match mention {
        Mention::Rec(name) => write_mention(out, " rec.", name.as_str()),
        Mention::NewRec(name) => write_mention(out, " newRec.", name.as_str()),
        Mention::User(name) => write_mention(out, " user.", name.as_str()),
    }
}

fn write_mention(out: &mut String, subject: &str, name: &str) -> Result<(), AllocError> {
    out.push_str(subject)?;
    out.push_str(name)
}

fn mentions(alloc: Global, rule: &str) -> Result<String, AllocError> {
    let mut out = String::new(alloc);
    if let Ok(tree) = parse_rule(alloc, rule) {
        for mention in tree.mentions() {
            push_mention(&mut out, mention)?;
        }
        if tree.uses_row() {
            out.push_str(" row")?;
        }
    }
    Ok(out)
}

fn is_text(made: &Result<String, AllocError>, want: &str) -> bool {
    match made {
        Ok(text) => text.as_str() == want,
        Err(_) => false,
    }
}

static MENTIONS: [(&str, &str); 5] = [
    (
        "newRec.A == -rec.B or (rec.B in [user.P.C, user.P, rec.A])",
        " newRec.A rec.B user.P rec.A row",
    ),
    (
        "user.Access == EDITOR or user.P.C == user.Q.C",
        " user.Access user.P user.Q",
    ),
    ("1 == OWNER", ""),
    ("", ""),
    ("rec.", ""),
];

#[test]
fn mentions_stand_once_in_order(rt: HostRuntime) {
    for row in &MENTIONS {
        assert!(rt;
            is_text(&mentions(rt.alloc(), row.0), row.1),
            "not {}",
            row.0
        );
    }
}
