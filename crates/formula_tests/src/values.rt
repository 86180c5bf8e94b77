//! Values of formulas over one table of three rows. Expected values are worked out by hand from
//! docs/FORMULAS.md.
//!
//! `gives_values` has the values of that page, each operator and function, references, lookups and
//! bad inputs; `notes_reads_in_order` has what is read, and that nothing else is. What each kind of
//! value gives is in kinds.rt.

ghost use Rattle.std.specs.Prelude.{◌≡◌, ◌<◌};

use crate::memory::Memory;
use crate::samples::{ColumnSample, Held, Kind, memory_of, name};
use crate::texts::is_text;
use Held::{
    Bool, Censored, Circular, Date, Error, Int, Letters, Needed, Null, Nulls, Numbers, Text, Texts,
};
use Kind::Any;
use cell_types::{CellValue, Read, RowRef, text_of};
use formula_eval::{Attempt, Note, Steps, attempt};
use formula_parse::{Formula, parse};
use std::alloc::{AllocError, Global};
use std::marker::Brand;
use std::sync::ledger::{Blank, Ledger};

// Table P.
static COLUMNS: [ColumnSample; 20] = [
    ("A", Any, Int(7), Null, Null),
    ("B", Any, Null, Null, Null),
    ("C", Any, Text("x"), Null, Null),
    ("N", Any, Int(7), Int(0), Null),
    ("S", Any, Text("ab"), Text(""), Text("a")),
    ("Flag", Any, Bool(true), Bool(false), Bool(true)),
    ("D", Any, Date(86400), Date(5), Null),
    ("L", Any, Numbers(&[1, 2]), Numbers(&[]), Texts(&["a"])),
    ("Tags", Any, Texts(&["a", "b"]), Texts(&["b"]), Text("a")),
    ("R", Kind::Ref, Int(2), Int(0), Int(9)),
    ("RL", Kind::RefList, Numbers(&[1, 3]), Null, Numbers(&[1])),
    ("X", Any, Circular, Int(1), Int(1)),
    ("E", Any, Error, Int(1), Int(1)),
    ("F", Any, Needed, Int(1), Int(1)),
    ("Hidden", Any, Censored, Int(1), Int(1)),
    ("K", Kind::Int, Int(1), Int(2), Int(1)),
    ("V", Kind::Int, Int(10), Int(20), Int(5)),
    ("Long", Any, Letters(40000), Null, Null),
    ("Many", Any, Nulls(5001), Null, Null),
    ("Odd", Kind::Ref, Text("x"), Int(-1), Bool(true)),
];

// Formulas, the row where they stand, and their values.
static VALUES: [(&str, u32, &str); 218] = [
    ("1", 1, "1"),
    ("'a'", 1, "'a'"),
    ("", 1, "None"),
    ("True", 1, "True"),
    ("rec", 2, "P[2]"),
    ("[1, 'a', None, rec]", 1, "[1, 'a', None, P[1]]"),
    ("[[1]]", 1, "TypeError"),
    ("[1 // 0, [1]]", 1, "ZeroDivisionError"),
    ("[]", 1, "[]"),
    ("(1)", 1, "1"),
    ("$N + 1", 1, "8"),
    ("1 + True", 1, "2"),
    ("'a' + $S", 1, "'aab'"),
    ("'a' + 'b'", 1, "'ab'"),
    ("[1] + $L", 1, "[1, 1, 2]"),
    ("[1] + [2]", 1, "[1, 2]"),
    ("1 + 'a'", 1, "TypeError"),
    ("'a' + 1", 1, "TypeError"),
    ("'a' * 2", 1, "TypeError"),
    ("None + 1", 1, "TypeError"),
    ("rec + 1", 1, "TypeError"),
    ("$D + 1", 1, "TypeError"),
    ("$D - $D", 1, "TypeError"),
    ("$Hidden + 1", 1, "TypeError"),
    ("$N - 9", 1, "-2"),
    ("3 * -2", 1, "-6"),
    ("-7 // 2", 1, "-4"),
    ("7 // -2", 1, "-4"),
    ("-7 % 2", 1, "1"),
    ("7 % -2", 1, "-1"),
    ("1 // 0", 1, "ZeroDivisionError"),
    ("1 % 0", 1, "ZeroDivisionError"),
    ("1 // False", 1, "ZeroDivisionError"),
    ("1 % False", 1, "ZeroDivisionError"),
    ("9223372036854775806 + 1", 1, "9223372036854775807"),
    ("9223372036854775807 + 1", 1, "OverflowError"),
    ("-9223372036854775807 - 2", 1, "OverflowError"),
    ("9223372036854775807 * 2", 1, "OverflowError"),
    ("-True", 1, "-1"),
    ("-'a'", 1, "TypeError"),
    ("not ''", 1, "True"),
    ("not $L", 1, "False"),
    ("not $RL", 2, "True"),
    ("not $R", 2, "True"),
    ("1 == True", 1, "True"),
    ("True == 1", 1, "True"),
    ("[True] == [1]", 1, "True"),
    ("1 == '1'", 1, "False"),
    ("'a' != 'b'", 1, "True"),
    ("$D == $D", 1, "True"),
    ("$D == 86400", 1, "False"),
    ("$L == [1, 2]", 1, "True"),
    ("rec == rec", 1, "True"),
    ("rec == P.lookupRecords(id=1)", 1, "False"),
    ("1 < 2", 1, "True"),
    ("2 <= 2", 1, "True"),
    ("3 <= 2", 1, "False"),
    ("'a' > 'b'", 1, "False"),
    ("'Z' < 'a'", 1, "True"),
    ("'a' < 'ab'", 1, "True"),
    ("2 >= 3", 1, "False"),
    ("3 >= 3", 1, "True"),
    ("$D > $D", 1, "False"),
    ("$D < 5", 1, "TypeError"),
    ("1 < 'x'", 1, "TypeError"),
    ("None < 1", 1, "TypeError"),
    ("[1] < [2]", 1, "TypeError"),
    ("$N < \"x\"", 1, "TypeError"),
    ("2 in $L", 1, "True"),
    ("'b' in $S", 1, "True"),
    ("True in [1]", 1, "True"),
    ("'bc' in 'abc'", 1, "True"),
    ("'' in 'a'", 1, "True"),
    ("1 in 'a'", 1, "TypeError"),
    ("3 not in $L", 1, "True"),
    ("rec in P.all", 1, "True"),
    ("3 in $RL", 1, "True"),
    ("2 in $RL", 1, "False"),
    ("'a' in 1", 1, "TypeError"),
    ("1 not in None", 1, "TypeError"),
    ("1 is True", 1, "False"),
    ("1 is not True", 1, "True"),
    ("True is 1", 1, "False"),
    ("[True] is [1]", 1, "True"),
    ("None is None", 1, "True"),
    ("$N or 'none'", 2, "'none'"),
    ("$N or \"none\"", 1, "7"),
    ("'' and 1", 1, "''"),
    ("2 and 3", 1, "3"),
    ("1 or $X", 1, "1"),
    ("0 and $X", 1, "0"),
    ("0 or $X", 1, "CircularRefError"),
    ("1 if $N else $X", 1, "1"),
    ("$X if 0 else 2", 1, "2"),
    ("-$N * 2 in [0, -14]", 1, "True"),
    ("-$N * 2 in [0, -14]", 3, "TypeError"),
    ("$id", 3, "3"),
    ("rec.N", 1, "7"),
    ("$R", 1, "P[2]"),
    ("$R", 2, "P[0]"),
    ("$R.N", 1, "0"),
    ("$R.id", 3, "9"),
    ("$R.N", 3, "None"),
    ("$R.K", 3, "0"),
    ("$R.R", 3, "P[0]"),
    ("$R.RL", 3, "P[[]]"),
    ("$R.Nope", 1, "AttributeError"),
    ("$Odd", 1, "'x'"),
    ("$Odd", 2, "-1"),
    ("$Odd", 3, "True"),
    ("$RL", 1, "P[[1, 3]]"),
    ("$RL", 2, "P[[]]"),
    ("$RL.N", 1, "[7, None]"),
    ("$RL.L", 1, "TypeError"),
    ("$RL.id", 1, "[1, 3]"),
    ("$RL.Nope", 1, "AttributeError"),
    ("$RL.Nope", 2, "[]"),
    ("$RL.E", 1, "ZeroDivisionError"),
    ("$Nope", 1, "AttributeError"),
    ("$N.a", 1, "AttributeError"),
    ("[1].id", 1, "AttributeError"),
    ("$E", 1, "ZeroDivisionError"),
    ("$X", 1, "CircularRefError"),
    ("$F", 1, "needed"),
    ("[$Hidden]", 1, "TypeError"),
    ("P.all", 1, "P[[1, 2, 3]]"),
    ("Q.all", 1, "NameError"),
    ("P.all.V", 1, "[10, 20, 5]"),
    ("P.lookupRecords()", 1, "P[[1, 2, 3]]"),
    ("P.lookupRecords(K=1)", 1, "P[[1, 3]]"),
    ("P.lookupRecords(K=1, V=5)", 1, "P[[3]]"),
    ("P.lookupRecords(K='1')", 1, "P[[]]"),
    ("P.lookupRecords(Flag=1)", 1, "P[[1, 3]]"),
    ("P.lookupRecords(id=2)", 1, "P[[2]]"),
    ("P.lookupRecords(E=1)", 1, "P[[2, 3]]"),
    ("P.lookupRecords(R=2)", 1, "P[[1]]"),
    ("P.lookupRecords(R=True)", 1, "P[[]]"),
    ("P.lookupRecords(R=P.lookupOne(id=2))", 1, "P[[1]]"),
    ("SUM(P.lookupRecords(K=$K).V)", 1, "15"),
    ("SUM(P.lookupRecords(K=$K).V)", 2, "20"),
    ("P.lookupOne(K=9)", 1, "P[0]"),
    ("P.lookupOne(K=9).V", 1, "0"),
    ("P.lookupOne(K=1).V", 1, "10"),
    ("P.lookupRecords(Nope=1)", 1, "KeyError"),
    ("P.lookupRecords(Nope=1 // 0)", 1, "KeyError"),
    ("P.lookupRecords(K=1 // 0, Nope=1)", 1, "KeyError"),
    ("P.lookupRecords(K=1 // 0)", 1, "ZeroDivisionError"),
    ("Q.lookupRecords(Nope=1)", 1, "NameError"),
    ("P.lookupRecords(X=1)", 2, "CircularRefError"),
    ("P.lookupRecords(K=2, X=1)", 2, "CircularRefError"),
    ("P.lookupRecords(F=1)", 1, "needed"),
    ("P.lookupRecords(F=1, X=1)", 1, "CircularRefError"),
    ("len(P.lookupRecords(Tags=CONTAINS('a')))", 1, "1"),
    ("P.lookupRecords(Tags=CONTAINS('b'))", 1, "P[[1, 2]]"),
    ("P.lookupRecords(RL=CONTAINS(3))", 1, "P[[1]]"),
    ("P.lookupRecords(RL=CONTAINS(rec))", 1, "P[[1, 3]]"),
    ("P.lookupRecords(id=CONTAINS(1))", 1, "P[[]]"),
    ("P.lookupRecords(Tags='a')", 1, "P[[3]]"),
    ("P.lookupRecords(Tags=(CONTAINS('a')))", 1, "NameError"),
    ("P.lookupRecords(Tags=CONTAINS())", 1, "NameError"),
    ("CONTAINS('a')", 1, "NameError"),
    ("IF(1, 2, $X)", 1, "2"),
    ("IF(0, $X, 3)", 1, "3"),
    ("IF(1 // 0, 1, 2)", 1, "ZeroDivisionError"),
    ("IF(1, 2)", 1, "TypeError"),
    ("IFERROR(7 // 2, -1)", 1, "3"),
    ("IFERROR(1 // 0, -1)", 1, "-1"),
    ("IFERROR(1 // 0)", 1, "''"),
    ("IFERROR()", 1, "TypeError"),
    ("IFERROR(1, 2, 3)", 1, "TypeError"),
    ("IFERROR($X, 1)", 1, "CircularRefError"),
    ("IFERROR($F, 1)", 1, "needed"),
    ("IFERROR(1, $X)", 1, "1"),
    ("SUM(1, [2, 3], 'a', True, None)", 1, "6"),
    ("SUM('a')", 1, "0"),
    ("SUM()", 1, "TypeError"),
    ("SUM(9223372036854775807, 1)", 1, "OverflowError"),
    ("SUM(9223372036854775807, 1, -1)", 1, "9223372036854775807"),
    ("MIN(3, [1, 2])", 1, "1"),
    ("MAX(3, [1, 2])", 1, "3"),
    ("MAX('a')", 1, "0"),
    ("MIN()", 1, "TypeError"),
    ("MAX($D)", 1, "d86400"),
    ("MIN($D, [$D])", 2, "d5"),
    ("MAX($D, 5)", 1, "TypeError"),
    ("len('aé')", 1, "2"),
    ("len($L)", 1, "2"),
    ("len($RL)", 1, "2"),
    ("len(1)", 1, "TypeError"),
    ("len()", 1, "TypeError"),
    ("len(1 // 0, 2)", 1, "TypeError"),
    ("abs(-3)", 1, "3"),
    ("abs(True)", 1, "1"),
    ("abs('a')", 1, "TypeError"),
    ("abs(-9223372036854775807 - 1)", 1, "OverflowError"),
    ("str(None)", 1, "'None'"),
    ("str($N)", 2, "'0'"),
    ("str([1, 'a'])", 1, "'[1, 'a']'"),
    ("str($D)", 1, "'d86400'"),
    ("str($Flag)", 1, "'True'"),
    ("str(rec)", 1, "'P[1]'"),
    ("str($RL)", 1, "'P[[1, 3]]'"),
    (
        "str(['a', None, True, $D, rec])",
        1,
        "'['a', None, True, d86400, P[1]]'",
    ),
    ("bool('')", 1, "False"),
    ("bool(rec)", 1, "True"),
    ("FOO(1 // 0)", 1, "NameError"),
    ("len($Long)", 1, "40000"),
    ("$Long + $Long", 1, "OverflowError"),
    ("len($Many + $Many)", 1, "10002"),
    ("$Many + $Many", 1, "OverflowError"),
    ("len($Many)", 1, "5001"),
    ("$A // 2", 1, "3"),
    ("$A + $C", 1, "TypeError"),
    ("IFERROR($A // 0, 'none')", 1, "'none'"),
    ("$B or $C", 1, "'x'"),
    ("len([$A, $B, $C])", 1, "3"),
    ("MAX($A, [9, 1])", 1, "9"),
    ("LEFT($C)", 1, "NameError"),
];

fn shown_value(alloc: Global, value: &CellValue) -> Result<String, AllocError> {
    match value {
        CellValue::Text(text) => quoted(alloc, text.as_str()),
        _ => plain(alloc, value),
    }
}

fn quoted(alloc: Global, text: &str) -> Result<String, AllocError> {
    format!(in alloc; "'{text}'")
}

fn plain(alloc: Global, value: &CellValue) -> Result<String, AllocError> {
    match text_of(alloc, value)? {
        Some(text) => String::from_str(alloc, text.as_str()),
        None => String::from_str(alloc, "long"),
    }
}

fn shown(alloc: Global, attempt: &Attempt) -> Result<String, AllocError> {
    match attempt {
        Attempt::Value { value, .. } => shown_value(alloc, value),
        Attempt::Need(_) => String::from_str(alloc, "needed"),
    }
}

// One attempt, in a count of its own. It takes no text: a ledger's name and parts cannot be picked
// at a call that does.
fn tried<L: Ledger>(
    alloc: Global,
    memory: &Memory,
    formula: &Formula,
    at: &RowRef,
    blank: Blank,
) -> Result<Attempt, AllocError>
    requires name { blank.name ≡ L.name }
    requires parts { blank.parts ≡ L.parts }
    requires some { 0 < L.parts }
{
    let mut steps = Steps::<L>::new(blank);
    attempt(alloc, formula, at, memory, &mut steps)
}

fn try_formula(
    alloc: Global,
    memory: &Memory,
    formula: &Formula,
    row: u32,
) -> Result<Attempt, AllocError> {
    let table = name(alloc, "P")?;
    let at = RowRef { table, row };
    tried::<Brand>(alloc, memory, formula, &at, Blank::new(1))
}

/// One attempt at the formula of a text, in a row of P.
pub fn try_text(
    alloc: Global,
    memory: &Memory,
    text: &str,
    row: u32,
) -> Result<Attempt, AllocError> {
    let Ok(formula) = parse(alloc, text) else {
        return Err(AllocError);
    };
    try_formula(alloc, memory, &formula, row)
}

fn text_for(alloc: Global, memory: &Memory, text: &str, row: u32) -> Result<String, AllocError> {
    shown(alloc, &try_text(alloc, memory, text, row)?)
}

fn has_value(alloc: Global, memory: &Result<Memory, AllocError>, case: &(&str, u32, &str)) -> bool {
    match memory {
        Ok(memory) => is_text(&text_for(alloc, memory, case.0, case.1), case.2),
        Err(_) => false,
    }
}

#[test]
fn gives_values(rt: HostRuntime) {
    let memory = memory_of(rt.alloc(), &COLUMNS);
    for case in &VALUES {
        assert!(rt;
            has_value(rt.alloc(), &memory, case),
            "at {} in row {}",
            case.0,
            case.1
        );
    }
}

// Formulas in row 1, and what they note: cells, key columns, rows of tables, and keys with values.
static NOTES: [(&str, &str); 14] = [
    ("1 or $N", ""),
    ("$N or $S", "C"),
    ("$N and $S", "CC"),
    ("IF($N, $S, $Flag)", "CC"),
    ("IF(1, 2)", ""),
    ("$id", ""),
    ("$RL.N", "CCC"),
    ("$Nope", "C"),
    ("P.all", "RA"),
    ("Q.lookupRecords(K=1)", "R"),
    ("P.lookupRecords(Nope=$N, K=1)", "RKK"),
    ("P.lookupRecords(K=$N, id=1)", "RKKCM"),
    ("P.lookupRecords(K=1 // 0)", "RK"),
    ("IFERROR($E, $N)", "CC"),
];

fn letter(note: &Note) -> char {
    match note {
        Note::Read(Read::Cell(_)) => 'C',
        Note::Read(Read::Key { .. }) => 'K',
        Note::Read(Read::Rows { .. }) => 'R',
        Note::All { .. } => 'A',
        Note::Met { .. } => 'M',
    }
}

fn letters(alloc: Global, notes: &[Note]) -> Result<String, AllocError> {
    let mut out = String::new(alloc);
    for note in notes {
        out.push(letter(note))?;
    }
    Ok(out)
}

fn noted(alloc: Global, attempt: &Attempt) -> Result<String, AllocError> {
    match attempt {
        Attempt::Value { notes, .. } => letters(alloc, notes.as_slice()),
        Attempt::Need(_) => String::from_str(alloc, "needed"),
    }
}

fn notes_for(alloc: Global, memory: &Memory, text: &str) -> Result<String, AllocError> {
    noted(alloc, &try_text(alloc, memory, text, 1)?)
}

fn has_notes(alloc: Global, memory: &Result<Memory, AllocError>, case: &(&str, &str)) -> bool {
    match memory {
        Ok(memory) => is_text(&notes_for(alloc, memory, case.0), case.1),
        Err(_) => false,
    }
}

#[test]
fn notes_reads_in_order(rt: HostRuntime) {
    let memory = memory_of(rt.alloc(), &COLUMNS);
    for case in &NOTES {
        assert!(rt; has_notes(rt.alloc(), &memory, case), "at {}", case.0);
    }
}
