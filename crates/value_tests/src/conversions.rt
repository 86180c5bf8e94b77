//! What no clause says: that the table of conversion and the texts of values are the ones meant,
//! that the calls succeed where there is memory, and what a new cell holds. Expected values are
//! written down from the users' table of conversion, not from the code.
//!
//! `values_become_what_the_table_says` has each row of that table at each type of column, with the
//! values at which an answer changes; `values_show_their_texts` has each kind of value, and items
//! without escapes; `texts_end_at_the_bound` has a text and a list that fit to the byte, and one
//! byte more; `values_are_the_same_as_their_copies_alone` has each of those values beside each
//! other one; `new_cells_hold_defaults` has the default of each type.

use crate::samples::{Kind, Part, Sample, is_text, shown, text, type_of, value_of};
use Part::{Bool, Date, Int, Letters, Null, Rec, Text};
use Sample::{List, One, RecSet};
use cell_types::{CellText, CellValue, ColType, Same, convert, copy_of, default_of, text_of};
use std::alloc::{AllocError, Global};

// The types of the columns, in the order of the table.
static KINDS: [Kind; 7] = [
    Kind::Any,
    Kind::Text,
    Kind::Int,
    Kind::Bool,
    Kind::Date,
    Kind::RefT,
    Kind::RefListT,
];

// Values, and what each becomes in columns of Any, Text, Int, Bool, Date, Ref:T and RefList:T: `=`
// is the value itself, `text` its text; any other text stands between quotes, and other values
// show their texts.
static CONVERSIONS: [(Sample, &str); 31] = [
    (One(Null), "=|=|=|False|=|0|="),
    (One(Int(0)), "=|text|=|False|d0|=|None"),
    (One(Int(1)), "=|text|=|True|d1|=|[1]"),
    (One(Int(-1)), "=|text|=|True|d-1|text|text"),
    (
        One(Int(4294967295)),
        "=|text|=|True|d4294967295|=|[4294967295]",
    ),
    (One(Int(4294967296)), "=|text|=|True|d4294967296|text|text"),
    (One(Bool(false)), "=|text|0|=|text|text|text"),
    (One(Bool(true)), "=|text|1|=|text|text|text"),
    (One(Date(86400)), "=|text|86400|text|=|text|text"),
    (One(Text("")), "=|=|None|False|None|0|None"),
    (One(Text("007")), "=|=|7|=|=|7|="),
    (One(Text("-0")), "=|=|0|=|=|0|="),
    (One(Text("1")), "=|=|1|True|=|1|="),
    (One(Text("0")), "=|=|0|False|=|0|="),
    (One(Text("-1")), "=|=|-1|=|=|=|="),
    (One(Text("4294967295")), "=|=|4294967295|=|=|4294967295|="),
    (One(Text("4294967296")), "=|=|4294967296|=|=|=|="),
    (
        One(Text("9223372036854775807")),
        "=|=|9223372036854775807|=|=|=|=",
    ),
    (
        One(Text("-9223372036854775808")),
        "=|=|-9223372036854775808|=|=|=|=",
    ),
    (One(Text("tRUE")), "=|=|=|True|=|=|="),
    (One(Text("yes")), "=|=|=|True|=|=|="),
    (One(Text("FALSE")), "=|=|=|False|=|=|="),
    (One(Text("No")), "=|=|=|False|=|=|="),
    (List(&[]), "=|text|text|text|text|text|None"),
    (
        List(&[Int(2), Int(4294967295)]),
        "=|text|text|text|text|text|=",
    ),
    (
        List(&[Rec("T", 2), Int(1)]),
        "=|text|text|text|text|text|[2, 1]",
    ),
    (One(Rec("T", 0)), "=|text|text|text|text|0|None"),
    (One(Rec("T", 3)), "=|text|text|text|text|3|[3]"),
    (RecSet("T", &[]), "=|text|text|text|text|text|None"),
    (RecSet("T", &[2, 1]), "=|text|text|text|text|text|[2, 1]"),
    (List(&[Letters(65533)]), "=|''|0|False|None|0|None"),
];

const STAYS: &str = "=|=|=|=|=|=|=";

// Texts that are nearly numbers or words, and values that stay everywhere.
static OTHERS: [Sample; 10] = [
    One(Text("9223372036854775808")),
    One(Text("-9223372036854775809")),
    One(Text("00000000000000000001")),
    One(Text("-")),
    One(Text("+1")),
    One(Text("1 ")),
    One(Text("on")),
    One(Text("None")),
    Sample::Err,
    Sample::Censored,
];

const SHOWS_ITS_TEXT: &str = "=|text|text|text|text|text|text";

// Lists and records that name no rows of T, or no such rows alone.
static NO_ROWS: [Sample; 8] = [
    List(&[Int(4294967296)]),
    List(&[Int(1), Int(0)]),
    List(&[Int(-1)]),
    List(&[Rec("T", 0)]),
    List(&[Rec("U", 1)]),
    List(&[Int(1), Text("2")]),
    One(Rec("U", 3)),
    RecSet("U", &[1]),
];

// Values and their texts.
static TEXTS: [(Sample, &str); 16] = [
    (One(Null), "None"),
    (One(Bool(true)), "True"),
    (One(Bool(false)), "False"),
    (One(Int(-7)), "-7"),
    (One(Int(-9223372036854775808)), "-9223372036854775808"),
    (One(Date(86400)), "d86400"),
    (One(Date(-7)), "d-7"),
    (One(Text("it's")), "it's"),
    (One(Rec("T", 3)), "T[3]"),
    (RecSet("T", &[]), "T[[]]"),
    (RecSet("T", &[1, 2]), "T[[1, 2]]"),
    (List(&[]), "[]"),
    (List(&[Null, Int(-1), Bool(true)]), "[None, -1, True]"),
    (List(&[Date(5), Rec("T", 3), Text("")]), "[d5, T[3], '']"),
    (
        List(&[Text("it's"), Text("\"a\\n\", ")]),
        "['it's', '\"a\\n\", ']",
    ),
    (Sample::Err, "TypeError"),
];

// Whether a value shows this, between quotes where it is a text.
fn is_shown(alloc: Global, value: &CellValue, want: &str) -> bool {
    is_text(&shown(alloc, value), want)
}

fn is_text_of(alloc: Global, made: &CellValue, value: &CellValue) -> bool {
    match made {
        CellValue::Text(made) => is_text(&text(alloc, value), made.as_str()),
        _ => false,
    }
}

// Whether what a value became is what the word of the table says.
fn is_word(alloc: Global, made: &CellValue, value: &CellValue, word: &str) -> bool {
    if word == "=" {
        made.same_as(value)
    } else if word == "text" {
        is_text_of(alloc, made, value)
    } else {
        is_shown(alloc, made, word)
    }
}

fn becomes(alloc: Global, ty: &ColType, value: &CellValue, word: &str) -> bool {
    let Ok(made) = convert(alloc, ty, value) else {
        return false;
    };
    is_word(alloc, &made, value, word)
}

fn becomes_in(alloc: Global, kind: Kind, value: &CellValue, word: &str) -> bool {
    let Ok(ty) = type_of(alloc, kind) else {
        return false;
    };
    becomes(alloc, &ty, value, word)
}

// Whether a value becomes what the row of the table says, a word for each type.
fn is_row(alloc: Global, value: &CellValue, row: &str) -> bool {
    let mut words = row.split('|');
    for kind in &KINDS {
        let Some(word) = words.next() else {
            return false;
        };
        if !becomes_in(alloc, *kind, value, word) {
            return false;
        }
    }
    words.next().is_none()
}

fn has_row(alloc: Global, sample: Sample, row: &str) -> bool {
    let Ok(value) = value_of(alloc, sample) else {
        return false;
    };
    is_row(alloc, &value, row)
}

fn have_row(alloc: Global, samples: &[Sample], row: &str) -> bool {
    for sample in samples {
        if !has_row(alloc, *sample, row) {
            return false;
        }
    }
    true
}

#[test]
fn values_become_what_the_table_says(rt: HostRuntime) {
    for row in &CONVERSIONS {
        assert!(rt; has_row(rt.alloc(), row.0, row.1), "not {}", row.1);
    }
    assert!(rt; have_row(rt.alloc(), &OTHERS, STAYS));
    assert!(rt; have_row(rt.alloc(), &NO_ROWS, SHOWS_ITS_TEXT));
}

fn has_text(alloc: Global, sample: Sample, want: &str) -> bool {
    let Ok(value) = value_of(alloc, sample) else {
        return false;
    };
    is_text(&text(alloc, &value), want)
}

#[test]
fn values_show_their_texts(rt: HostRuntime) {
    for row in &TEXTS {
        assert!(rt; has_text(rt.alloc(), row.0, row.1), "not {}", row.1);
    }
}

// Whether a value's text has this size; 0 says that it has none.
fn is_size(text: &Result<Option<CellText>, AllocError>, size: usize) -> bool {
    match text {
        Ok(Some(text)) => text.len() == size,
        Ok(None) => size == 0,
        Err(_) => false,
    }
}

fn has_size(alloc: Global, sample: Sample, size: usize) -> bool {
    let Ok(value) = value_of(alloc, sample) else {
        return false;
    };
    is_size(&text_of(alloc, &value), size)
}

// Values, and the sizes of their texts; 0 for none.
static SIZES: [(Sample, usize); 4] = [
    (One(Letters(65536)), 65536),
    (One(Letters(65537)), 0),
    (List(&[Letters(65532)]), 65536),
    (List(&[Letters(65533)]), 0),
];

#[test]
fn texts_end_at_the_bound(rt: HostRuntime) {
    for row in &SIZES {
        assert!(rt; has_size(rt.alloc(), row.0, row.1), "not {}", row.1);
    }
}

// The types of columns, and the default of each.
static DEFAULTS: [(Kind, &str); 7] = [
    (Kind::Any, "None"),
    (Kind::Text, "''"),
    (Kind::Int, "0"),
    (Kind::Bool, "False"),
    (Kind::Date, "None"),
    (Kind::RefT, "0"),
    (Kind::RefListT, "None"),
];

fn is_default(alloc: Global, ty: &ColType, want: &str) -> bool {
    is_shown(alloc, &default_of(ty), want)
}

fn has_default(alloc: Global, kind: Kind, want: &str) -> bool {
    let Ok(ty) = type_of(alloc, kind) else {
        return false;
    };
    is_default(alloc, &ty, want)
}

#[test]
fn new_cells_hold_defaults(rt: HostRuntime) {
    for row in &DEFAULTS {
        assert!(rt; has_default(rt.alloc(), row.0, row.1), "not {}", row.1);
    }
}

fn copied(alloc: Global, sample: Sample) -> Result<CellValue, AllocError> {
    copy_of(&value_of(alloc, sample)?)
}

// Whether a value and a copy are the same, where they have to be, and else are not.
fn are_same(
    value: &Result<CellValue, AllocError>,
    copy: &Result<CellValue, AllocError>,
    want: bool,
) -> bool {
    let Ok(value) = value else {
        return false;
    };
    let Ok(copy) = copy else {
        return false;
    };
    value.same_as(copy) == want
}

fn compares(alloc: Global, value: Sample, other: Sample, want: bool) -> bool {
    are_same(&value_of(alloc, value), &copied(alloc, other), want)
}

// Whether a value is the same as the copy of the value at its own index, and as no other copy.
fn is_copy_alone(alloc: Global, value: Sample, index: usize) -> bool {
    for (at, other) in TEXTS.iter().enumerate() {
        if !compares(alloc, value, other.0, at == index) {
            return false;
        }
    }
    true
}

#[test]
fn values_are_the_same_as_their_copies_alone(rt: HostRuntime) {
    for (index, row) in TEXTS.iter().enumerate() {
        assert!(rt; is_copy_alone(rt.alloc(), row.0, index), "at {}", row.1);
    }
}
