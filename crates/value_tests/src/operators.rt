//! Operators on values, by tables of what the clauses are meant to say: kinds and errors are from
//! the users' page on operators, numbers and comparisons are what Python 3 gives (`+`, `-`, `*`,
//! `//`, `%`, `<`, `in`), with `o` for what 64 bits do not hold.
//!
//! `numbers_are_those_of_python` has the ends of 64 bits and each pair of signs;
//! `kinds_meet_as_the_page_says` has each operator at each pair of kinds; the others have the rest
//! of the page, and what is told of a fault.

use crate::samples::{Part, Sample, is_text, value_of};
use Answer::{Letter, Number};
use Part::{Bool, Date, Int, Letters, Null, Rec, Text};
use Sample::{List, Nulls, One, RecSet};
use cell_types::{CellValue, ErrKind, decimal_value};
use std::alloc::{AllocError, Global};
use value_ops::{
    OpFault, add, contains, equal, floor_div, less, modulo, mul, negate, same, sub, truth,
};

#[derive(Clone, Copy)]
enum Operator {
    Add,
    Sub,
    Mul,
    FloorDiv,
    Modulo,
    NegateLeft,
    Contains,
    Equal,
    Same,
    Less,
}

fn apply(
    alloc: Global,
    operator: Operator,
    left: &CellValue,
    right: &CellValue,
) -> Result<CellValue, OpFault> {
    match operator {
        Operator::Add => add(alloc, left, right),
        Operator::Sub => sub(left, right),
        Operator::Mul => mul(left, right),
        Operator::FloorDiv => floor_div(left, right),
        Operator::Modulo => modulo(left, right),
        Operator::NegateLeft => negate(left),
        Operator::Contains => contains(left, right),
        Operator::Equal => Ok(CellValue::Bool(equal(left, right))),
        Operator::Same => Ok(CellValue::Bool(same(left, right))),
        Operator::Less => Ok(CellValue::Bool(less(left, right)?)),
    }
}

// A letter for a result: true, false, another value; a wrong type, overflow, division by zero, no
// memory.
fn letter(outcome: &Result<CellValue, OpFault>) -> char {
    match outcome {
        Ok(CellValue::Bool(true)) => 't',
        Ok(CellValue::Bool(false)) => 'f',
        Ok(_) => 'v',
        Err(OpFault::Raised(ErrKind::WrongType)) => '.',
        Err(OpFault::Raised(ErrKind::Overflow)) => 'o',
        Err(OpFault::Raised(ErrKind::ZeroDivision)) => 'z',
        Err(_) => '!',
    }
}

// What an operator has to give: a number, or anything that has this letter.
#[derive(Clone, Copy)]
enum Answer {
    Number(i64),
    Letter(char),
}

fn is_number(outcome: &Result<CellValue, OpFault>, want: i64) -> bool {
    match outcome {
        Ok(CellValue::Int(number)) => *number == want,
        _ => false,
    }
}

fn is_answer(outcome: &Result<CellValue, OpFault>, want: Answer) -> bool {
    match want {
        Number(want) => is_number(outcome, want),
        Letter(want) => letter(outcome) == want,
    }
}

fn is_given(
    alloc: Global,
    operator: Operator,
    left: &Result<CellValue, AllocError>,
    right: &Result<CellValue, AllocError>,
    want: Answer,
) -> bool {
    let Ok(left) = left else {
        return false;
    };
    let Ok(right) = right else {
        return false;
    };
    is_answer(&apply(alloc, operator, left, right), want)
}

// Whether an operator gives this for two values.
fn gives(alloc: Global, operator: Operator, left: Sample, right: Sample, want: Answer) -> bool {
    is_given(
        alloc,
        operator,
        &value_of(alloc, left),
        &value_of(alloc, right),
        want,
    )
}

// The operators on numbers, in the order of the table.
static ARITHMETIC: [Operator; 6] = [
    Operator::Add,
    Operator::Sub,
    Operator::Mul,
    Operator::FloorDiv,
    Operator::Modulo,
    Operator::NegateLeft,
];

// Two numbers, and what each operator gives.
static NUMBERS: [(i64, i64, &str); 15] = [
    (7, 2, "9 5 14 3 1 -7"),
    (-7, 2, "-5 -9 -14 -4 1 7"),
    (7, -2, "5 9 -14 -4 -1 -7"),
    (-7, -2, "-9 -5 14 3 -1 7"),
    (-6, 3, "-3 -9 -18 -2 0 6"),
    (0, -5, "-5 5 0 0 0 0"),
    (5, 0, "5 5 0 z z -5"),
    (
        -1,
        i64::MAX,
        "9223372036854775806 -9223372036854775808 -9223372036854775807 -1 9223372036854775806 1",
    ),
    (i64::MIN, -1, "o -9223372036854775807 o o 0 o"),
    (
        i64::MIN,
        2,
        "-9223372036854775806 o o -4611686018427387904 0 o",
    ),
    (i64::MAX, i64::MIN, "-1 o o -1 -1 -9223372036854775807"),
    (i64::MIN, i64::MIN, "o 0 o 1 0 o"),
    (
        i64::MAX,
        1,
        "o 9223372036854775806 9223372036854775807 9223372036854775807 0 -9223372036854775807",
    ),
    (
        i64::MIN,
        1,
        "-9223372036854775807 o -9223372036854775808 -9223372036854775808 0 o",
    ),
    (3037000500, 3037000500, "6074001000 0 o 1 0 -3037000500"),
];

// What a word stands for: a number, or a letter.
fn answer_of(word: &str) -> Answer {
    match decimal_value(word) {
        Some(number) => Number(number),
        None => Letter(word.chars().next().unwrap_or('?')),
    }
}

// Whether the operators give these words for two numbers.
fn are_numbers(alloc: Global, left: i64, right: i64, row: &str) -> bool {
    let mut words = row.split(' ');
    for operator in &ARITHMETIC {
        let Some(word) = words.next() else {
            return false;
        };
        if !gives(
            alloc,
            *operator,
            One(Int(left)),
            One(Int(right)),
            answer_of(word),
        ) {
            return false;
        }
    }
    words.next().is_none()
}

#[test]
fn numbers_are_those_of_python(rt: HostRuntime) {
    for row in &NUMBERS {
        assert!(rt;
            are_numbers(rt.alloc(), row.0, row.1, row.2),
            "not {}",
            row.2
        );
    }
}

// Two values, an operator, and the letter of what it gives.
type Row = (Sample, Operator, Sample, char);

fn is_so(alloc: Global, row: &Row) -> bool {
    gives(alloc, row.1, row.0, row.2, Letter(row.3))
}

static DIVIDED: [Row; 2] = [
    (One(Int(5)), Operator::FloorDiv, One(Bool(false)), 'z'),
    (One(Bool(true)), Operator::Modulo, One(Bool(false)), 'z'),
];

#[test]
fn false_divides_as_zero(rt: HostRuntime) {
    for row in &DIVIDED {
        assert!(rt; is_so(rt.alloc(), row));
    }
}

// One value of each kind; 1 is a number, a truth and a second.
static KINDS: [Sample; 8] = [
    One(Null),
    One(Int(1)),
    One(Bool(true)),
    One(Text("b")),
    One(Date(1)),
    One(Rec("T", 1)),
    RecSet("T", &[1, 3]),
    List(&[Bool(true), Text("b")]),
];

const ON_NUMBERS: &str = "........ .vv..... .vv..... ........ ........ ........ ........ ........";

// The letters of each operator: a word for each left operand, a letter for each right one.
static MEETINGS: [(Operator, &str); 10] = [
    (
        Operator::Add,
        "........ .vv..... .vv..... ...v.... ........ ........ ........ .......v",
    ),
    (Operator::Sub, ON_NUMBERS),
    (Operator::Mul, ON_NUMBERS),
    (Operator::FloorDiv, ON_NUMBERS),
    (Operator::Modulo, ON_NUMBERS),
    (
        Operator::NegateLeft,
        "........ vvvvvvvv vvvvvvvv ........ ........ ........ ........ ........",
    ),
    (
        Operator::Equal,
        "tfffffff fttfffff fttfffff ffftffff fffftfff ffffftff fffffftf ffffffft",
    ),
    (
        Operator::Same,
        "tfffffff ftffffff fftfffff ffftffff fffftfff ffffftff fffffftf ffffffft",
    ),
    (
        Operator::Less,
        "........ .ff..... .ff..... ...f.... ....f... ........ ........ ........",
    ),
    (
        Operator::Contains,
        "......ff ......tt ......tt ...t..ft ......ff ......tf ......ff ......ff",
    ),
];

// Whether an operator gives these letters for a value, one beside each kind.
fn gives_row(alloc: Global, operator: Operator, left: Sample, row: &str) -> bool {
    let mut letters = row.chars();
    for right in &KINDS {
        let Some(letter) = letters.next() else {
            return false;
        };
        if !gives(alloc, operator, left, *right, Letter(letter)) {
            return false;
        }
    }
    letters.next().is_none()
}

fn gives_rows(alloc: Global, operator: Operator, rows: &str) -> bool {
    let mut rows = rows.split(' ');
    for left in &KINDS {
        let Some(row) = rows.next() else {
            return false;
        };
        if !gives_row(alloc, operator, *left, row) {
            return false;
        }
    }
    rows.next().is_none()
}

#[test]
fn kinds_meet_as_the_page_says(rt: HostRuntime) {
    for row in &MEETINGS {
        assert!(rt; gives_rows(rt.alloc(), row.0, row.1), "not {}", row.1);
    }
}

static LISTS: [Row; 4] = [
    (ONE_AND_B, Operator::Equal, TRUE_AND_B, 't'),
    (TRUE_AND_B, Operator::Same, ONE_AND_B, 't'),
    (ONE_AND_B, Operator::Equal, FALSE_AND_B, 'f'),
    (FALSE_AND_B, Operator::Same, ONE_AND_B, 'f'),
];

const ONE_AND_B: Sample = List(&[Int(1), Text("b")]);

const TRUE_AND_B: Sample = List(&[Bool(true), Text("b")]);

const FALSE_AND_B: Sample = List(&[Bool(false), Text("b")]);

#[test]
fn lists_compare_by_number(rt: HostRuntime) {
    for row in &LISTS {
        assert!(rt; is_so(rt.alloc(), row), "not {}", row.3);
    }
}

static RECORDS: [Row; 3] = [
    (
        One(Rec("T", 1)),
        Operator::Contains,
        RecSet("T", &[1, 3]),
        't',
    ),
    (
        One(Rec("U", 1)),
        Operator::Contains,
        RecSet("T", &[1, 3]),
        'f',
    ),
    (One(Rec("T", 1)), Operator::Equal, One(Rec("U", 1)), 'f'),
];

#[test]
fn records_of_other_tables_are_others(rt: HostRuntime) {
    for row in &RECORDS {
        assert!(rt; is_so(rt.alloc(), row), "not {}", row.3);
    }
}

// Two texts, whether the left one is less, and whether it is a part of the right one.
static ORDERED: [(&str, &str, char, char); 10] = [
    ("a", "b", 't', 'f'),
    ("a", "ab", 't', 't'),
    ("b", "ab", 'f', 't'),
    ("Z", "a", 't', 'f'),
    ("z", "aa", 'f', 'f'),
    ("\u{e9}", "z", 'f', 'f'),
    ("\u{ffff}", "\u{10000}", 't', 'f'),
    ("", "", 'f', 't'),
    ("ac", "abc", 'f', 'f'),
    ("aab", "aaab", 'f', 't'),
];

fn are_ordered(alloc: Global, row: &(&'static str, &'static str, char, char)) -> bool {
    let (left, right) = (One(Text(row.0)), One(Text(row.1)));
    gives(alloc, Operator::Less, left, right, Letter(row.2))
        && gives(alloc, Operator::Contains, left, right, Letter(row.3))
}

#[test]
fn texts_compare_as_in_python(rt: HostRuntime) {
    for row in &ORDERED {
        assert!(rt; are_ordered(rt.alloc(), row), "at {} and {}", row.0, row.1);
    }
}

// Values, and whether each counts as true: one of each kind, the empty ones, and a date.
static TRUTHS: [(Sample, bool); 15] = [
    (One(Null), false),
    (One(Int(1)), true),
    (One(Bool(true)), true),
    (One(Text("b")), true),
    (One(Date(1)), true),
    (One(Rec("T", 1)), true),
    (RecSet("T", &[1, 3]), true),
    (List(&[Bool(true), Text("b")]), true),
    (One(Int(0)), false),
    (One(Bool(false)), false),
    (One(Text("")), false),
    (One(Rec("T", 0)), false),
    (RecSet("T", &[]), false),
    (List(&[]), false),
    (One(Date(0)), true),
];

fn has_truth(alloc: Global, sample: Sample, want: bool) -> bool {
    let Ok(value) = value_of(alloc, sample) else {
        return false;
    };
    truth(&value) == want
}

#[test]
fn empty_values_are_false(rt: HostRuntime) {
    for (index, row) in TRUTHS.iter().enumerate() {
        assert!(rt; has_truth(rt.alloc(), row.0, row.1), "at value {index}");
    }
}

// The last values that fit, and the first that do not.
static JOINED: [Row; 4] = [
    (One(Letters(65_535)), Operator::Add, One(Letters(1)), 'v'),
    (Nulls(999_999), Operator::Add, Nulls(1), 'v'),
    (One(Letters(65_535)), Operator::Add, One(Letters(2)), 'o'),
    (Nulls(999_999), Operator::Add, Nulls(2), 'o'),
];

#[test]
fn joining_ends_at_its_bounds(rt: HostRuntime) {
    for row in &JOINED {
        assert!(rt; is_so(rt.alloc(), row), "not {}", row.3);
    }
}

// Faults, and what they tell.
static MESSAGES: [(OpFault, &str); 3] = [
    (
        OpFault::Raised(ErrKind::WrongType),
        "the operator raises TypeError",
    ),
    (
        OpFault::Raised(ErrKind::ZeroDivision),
        "the operator raises ZeroDivisionError",
    ),
    (OpFault::NoMemory, "out of memory"),
];

fn is_told(alloc: Global, fault: OpFault, want: &str) -> bool {
    is_text(&format!(in alloc; "{fault}"), want)
}

#[test]
fn faults_tell_what_is_raised(rt: HostRuntime) {
    for row in &MESSAGES {
        assert!(rt; is_told(rt.alloc(), row.0, row.1), "not {}", row.1);
    }
}
