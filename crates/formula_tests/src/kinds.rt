//! What each operator and each function gives on each kind of value. The letters are worked out by
//! hand from docs/FORMULAS.md.
//!
//! `kinds_decide_what_operators_give` has each pair of kinds, `kinds_decide_what_functions_give`
//! each kind. No cell that a formula reads is censored; such a value is here as one that has no
//! operator.

use crate::memory::Memory;
use crate::samples::{ColumnSample, Held, Kind, memory_of};
use crate::values::try_text;
use Held::{Bool, Censored, Date, Error, Int, Null, Numbers, Text};
use Kind::{Any, Ref, RefList};
use cell_types::{CellValue, ErrKind};
use formula_eval::Attempt;
use std::alloc::{AllocError, Global};

// Table P: a column for each kind. Row 2 has the values that are false, where a kind has one.
static COLUMNS: [ColumnSample; 10] = [
    ("Null", Any, Null, Null, Null),
    ("Int", Any, Int(1), Int(0), Null),
    ("Bool", Any, Bool(true), Bool(false), Null),
    ("Text", Any, Text("a"), Text(""), Null),
    ("Date", Any, Date(1), Date(0), Null),
    ("Rec", Ref, Int(1), Int(0), Null),
    ("Set", RefList, Numbers(&[1, 2]), Null, Null),
    ("List", Any, Numbers(&[1]), Numbers(&[]), Null),
    ("Error", Any, Error, Error, Null),
    ("Censored", Any, Censored, Censored, Null),
];

// The operands, in the order of the tables.
static OPERANDS: [&str; 10] = [
    "$Null",
    "$Int",
    "$Bool",
    "$Text",
    "$Date",
    "$Rec",
    "$Set",
    "$List",
    "$Error",
    "$Censored",
];

fn digit(number: i64) -> char {
    match number {
        -1 => 'm',
        0 => '0',
        1 => '1',
        2 => '2',
        _ => '?',
    }
}

// `.` is TypeError, `a` AttributeError, `z` ZeroDivisionError; `m` is -1.
fn letter_of(value: &CellValue) -> char {
    match value {
        CellValue::Null => 'n',
        CellValue::Int(number) => digit(*number),
        CellValue::Bool(true) => 't',
        CellValue::Bool(false) => 'f',
        CellValue::Text(_) => 's',
        CellValue::Date(_) => 'd',
        CellValue::Rec(_) => 'r',
        CellValue::RecSet(_) => 'R',
        CellValue::List(_) => 'l',
        CellValue::Err(ErrKind::WrongType) => '.',
        CellValue::Err(ErrKind::Attribute) => 'a',
        CellValue::Err(ErrKind::ZeroDivision) => 'z',
        CellValue::Err(_) => '!',
        CellValue::Censored => 'c',
    }
}

fn letter_for(alloc: Global, memory: &Memory, text: &str, row: u32) -> char {
    match &try_text(alloc, memory, text, row) {
        Ok(Attempt::Value { value, .. }) => letter_of(value),
        _ => '?',
    }
}

fn is_letter(
    alloc: Global,
    memory: &Memory,
    text: &Result<String, AllocError>,
    row: u32,
    want: char,
) -> bool {
    match text {
        Ok(text) => letter_for(alloc, memory, text.as_str(), row) == want,
        Err(_) => false,
    }
}

// A row of P, operators, and for each left operand a word for each right one; a word has a letter
// for each operator.
type Pairs = (u32, &'static [&'static str], [&'static str; 10]);

static PAIRS: [Pairs; 8] = [
    (
        1,
        &["+", "-", "*", "//", "%"],
        [
            // Null Int   Bool  Text  Date  Rec   Set   List  Error Censored
            "..... ..... ..... ..... ..... ..... ..... ..... zzzzz .....",
            "..... 20110 20110 ..... ..... ..... ..... ..... zzzzz .....",
            "..... 20110 20110 ..... ..... ..... ..... ..... zzzzz .....",
            "..... ..... ..... s.... ..... ..... ..... ..... zzzzz .....",
            "..... ..... ..... ..... ..... ..... ..... ..... zzzzz .....",
            "..... ..... ..... ..... ..... ..... ..... ..... zzzzz .....",
            "..... ..... ..... ..... ..... ..... ..... ..... zzzzz .....",
            "..... ..... ..... ..... ..... ..... ..... l.... zzzzz .....",
            "zzzzz zzzzz zzzzz zzzzz zzzzz zzzzz zzzzz zzzzz zzzzz zzzzz",
            "..... ..... ..... ..... ..... ..... ..... ..... zzzzz .....",
        ],
    ),
    (
        1,
        &["==", "!=", "is", "is not"],
        [
            "tftf ftft ftft ftft ftft ftft ftft ftft zzzz ftft",
            "ftft tftf tfft ftft ftft ftft ftft ftft zzzz ftft",
            "ftft tfft tftf ftft ftft ftft ftft ftft zzzz ftft",
            "ftft ftft ftft tftf ftft ftft ftft ftft zzzz ftft",
            "ftft ftft ftft ftft tftf ftft ftft ftft zzzz ftft",
            "ftft ftft ftft ftft ftft tftf ftft ftft zzzz ftft",
            "ftft ftft ftft ftft ftft ftft tftf ftft zzzz ftft",
            "ftft ftft ftft ftft ftft ftft ftft tftf zzzz ftft",
            "zzzz zzzz zzzz zzzz zzzz zzzz zzzz zzzz zzzz zzzz",
            "ftft ftft ftft ftft ftft ftft ftft ftft zzzz ftft",
        ],
    ),
    (
        1,
        &["<", "<=", ">", ">="],
        [
            ".... .... .... .... .... .... .... .... zzzz ....",
            ".... ftft ftft .... .... .... .... .... zzzz ....",
            ".... ftft ftft .... .... .... .... .... zzzz ....",
            ".... .... .... ftft .... .... .... .... zzzz ....",
            ".... .... .... .... ftft .... .... .... zzzz ....",
            ".... .... .... .... .... .... .... .... zzzz ....",
            ".... .... .... .... .... .... .... .... zzzz ....",
            ".... .... .... .... .... .... .... .... zzzz ....",
            "zzzz zzzz zzzz zzzz zzzz zzzz zzzz zzzz zzzz zzzz",
            ".... .... .... .... .... .... .... .... zzzz ....",
        ],
    ),
    (
        1,
        &["in", "not in"],
        [
            ".. .. .. .. .. .. ft ft zz ..",
            ".. .. .. .. .. .. tf tf zz ..",
            ".. .. .. .. .. .. tf tf zz ..",
            ".. .. .. tf .. .. ft ft zz ..",
            ".. .. .. .. .. .. ft ft zz ..",
            ".. .. .. .. .. .. tf ft zz ..",
            ".. .. .. .. .. .. ft ft zz ..",
            ".. .. .. .. .. .. ft ft zz ..",
            "zz zz zz zz zz zz zz zz zz zz",
            ".. .. .. .. .. .. ft ft zz ..",
        ],
    ),
    (
        1,
        &["and", "or"],
        [
            "nn n1 nt ns nd nr nR nl nz nc",
            "n1 11 t1 s1 d1 r1 R1 l1 z1 c1",
            "nt 1t tt st dt rt Rt lt zt ct",
            "ns 1s ts ss ds rs Rs ls zs cs",
            "nd 1d td sd dd rd Rd ld zd cd",
            "nr 1r tr sr dr rr Rr lr zr cr",
            "nR 1R tR sR dR rR RR lR zR cR",
            "nl 1l tl sl dl rl Rl ll zl cl",
            "zz zz zz zz zz zz zz zz zz zz",
            "nc 1c tc sc dc rc Rc lc zc cc",
        ],
    ),
    (
        2,
        &["//", "%"],
        [
            ".. .. .. .. .. .. .. .. zz ..",
            ".. zz zz .. .. .. .. .. zz ..",
            ".. zz zz .. .. .. .. .. zz ..",
            ".. .. .. .. .. .. .. .. zz ..",
            ".. .. .. .. .. .. .. .. zz ..",
            ".. .. .. .. .. .. .. .. zz ..",
            ".. .. .. .. .. .. .. .. zz ..",
            ".. .. .. .. .. .. .. .. zz ..",
            "zz zz zz zz zz zz zz zz zz zz",
            ".. .. .. .. .. .. .. .. zz ..",
        ],
    ),
    (
        2,
        &["in", "not in"],
        [
            ".. .. .. .. .. .. ft ft zz ..",
            ".. .. .. .. .. .. ft ft zz ..",
            ".. .. .. .. .. .. ft ft zz ..",
            ".. .. .. tf .. .. ft ft zz ..",
            ".. .. .. .. .. .. ft ft zz ..",
            ".. .. .. .. .. .. ft ft zz ..",
            ".. .. .. .. .. .. ft ft zz ..",
            ".. .. .. .. .. .. ft ft zz ..",
            "zz zz zz zz zz zz zz zz zz zz",
            ".. .. .. .. .. .. ft ft zz ..",
        ],
    ),
    (
        2,
        &["and", "or"],
        [
            "nn n0 nf ns nd nr nR nl nz nc",
            "0n 00 0f 0s 0d 0r 0R 0l 0z 0c",
            "fn f0 ff fs fd fr fR fl fz fc",
            "sn s0 sf ss sd sr sR sl sz sc",
            "nd 0d fd sd dd rd Rd ld zd cd",
            "rn r0 rf rs rd rr rR rl rz rc",
            "Rn R0 Rf Rs Rd Rr RR Rl Rz Rc",
            "ln l0 lf ls ld lr lR ll lz lc",
            "zz zz zz zz zz zz zz zz zz zz",
            "nc 0c fc sc dc rc Rc lc zc cc",
        ],
    ),
];

// What stands before and behind an operand, and a letter for each operand of row 1 and of row 2.
type Form = (&'static str, &'static str, &'static str, &'static str);

static FORMS: [Form; 22] = [
    ("", "", "n1tsdrRlzc", "n0fsdrRlzc"),
    ("-", "", ".mm.....z.", ".00.....z."),
    ("not ", "", "tfffffffzf", "ttttftttzf"),
    ("1 if ", " else 2", "21111111z1", "22221222z1"),
    ("", " if 1 else 2", "n1tsdrRlzc", "n0fsdrRlzc"),
    ("[", "]", "llllll..z.", "llllll..z."),
    ("", ".id", "aaaaa1laza", "aaaaa0laza"),
    ("IF(", ", 1, 2)", "21111111z1", "22221222z1"),
    ("IF(1, ", ", 2)", "n1tsdrRlzc", "n0fsdrRlzc"),
    ("IF(0, ", ", 2)", "2222222222", "2222222222"),
    ("IFERROR(", ")", "n1tsdrRlsc", "n0fsdrRlsc"),
    ("IFERROR(", ", 2)", "n1tsdrRl2c", "n0fsdrRl2c"),
    ("IFERROR(1 // 0, ", ")", "n1tsdrRlzc", "n0fsdrRlzc"),
    ("SUM(", ")", "01000001z0", "00000000z0"),
    ("MIN(", ")", "0100d001z0", "0000d000z0"),
    ("MAX(", ")", "0100d001z0", "0000d000z0"),
    ("MIN(2, ", ")", "2122.221z2", "2022.222z2"),
    ("MAX($Date, ", ")", "d.ddddd.zd", "d.ddddddzd"),
    ("len(", ")", "...1..21z.", "...0..00z."),
    ("abs(", ")", ".11.....z.", ".00.....z."),
    ("str(", ")", "sssssssszs", "sssssssszs"),
    ("bool(", ")", "ftttttttzt", "fffftfffzt"),
];

// Whether each operator gives its letter between two operands.
fn gives_word(
    alloc: Global,
    memory: &Memory,
    pairs: &Pairs,
    left: &str,
    right: &str,
    word: &str,
) -> bool {
    let mut letters = word.chars();
    for operator in pairs.1 {
        let Some(letter) = letters.next() else {
            return false;
        };
        let text = format!(in alloc; "{left} {operator} {right}");
        if !is_letter(alloc, memory, &text, pairs.0, letter) {
            return false;
        }
    }
    letters.next().is_none()
}

// Whether the operators give these words for an operand, one beside each other operand.
fn gives_words(alloc: Global, memory: &Memory, pairs: &Pairs, left: &str, words: &str) -> bool {
    let mut words = words.split(' ');
    for right in &OPERANDS {
        let Some(word) = words.next() else {
            return false;
        };
        if !gives_word(alloc, memory, pairs, left, right, word) {
            return false;
        }
    }
    words.next().is_none()
}

fn gives_pairs(alloc: Global, memory: &Memory, pairs: &Pairs) -> bool {
    let mut rows = pairs.2.iter();
    for left in &OPERANDS {
        let Some(words) = rows.next() else {
            return false;
        };
        if !gives_words(alloc, memory, pairs, left, words) {
            return false;
        }
    }
    true
}

fn are_given(alloc: Global, memory: &Result<Memory, AllocError>, pairs: &Pairs) -> bool {
    match memory {
        Ok(memory) => gives_pairs(alloc, memory, pairs),
        Err(_) => false,
    }
}

#[test]
fn kinds_decide_what_operators_give(rt: HostRuntime) {
    let memory = memory_of(rt.alloc(), &COLUMNS);
    for pairs in &PAIRS {
        assert!(rt;
            are_given(rt.alloc(), &memory, pairs),
            "at {} in row {}",
            pairs.1[0],
            pairs.0
        );
    }
}

// Whether a form gives these letters in a row, one for each operand.
fn gives_letters(alloc: Global, memory: &Memory, form: &Form, row: u32, letters: &str) -> bool {
    let (before, behind) = (form.0, form.1);
    let mut letters = letters.chars();
    for operand in &OPERANDS {
        let Some(letter) = letters.next() else {
            return false;
        };
        let text = format!(in alloc; "{before}{operand}{behind}");
        if !is_letter(alloc, memory, &text, row, letter) {
            return false;
        }
    }
    letters.next().is_none()
}

fn is_form(alloc: Global, memory: &Result<Memory, AllocError>, form: &Form) -> bool {
    match memory {
        Ok(memory) => {
            gives_letters(alloc, memory, form, 1, form.2)
                && gives_letters(alloc, memory, form, 2, form.3)
        }
        Err(_) => false,
    }
}

#[test]
fn kinds_decide_what_functions_give(rt: HostRuntime) {
    let memory = memory_of(rt.alloc(), &COLUMNS);
    for form in &FORMS {
        assert!(rt;
            is_form(rt.alloc(), &memory, form),
            "at {}x{}",
            form.0,
            form.1
        );
    }
}
