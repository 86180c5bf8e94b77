//! Lines that are peeks and lines that are none, and the lines of answers.
use crate::{PeekAnswer, read_peek, write_peek};
use doc_model::ViewActionList;
use std::alloc::Global;
use std::test::Fail;

// The table that the line asks for, if it spells a peek.
fn is_peek_at(alloc: Global, line: &str, table: &str) -> bool {
    match read_peek(alloc, line.as_bytes()) {
        Ok(Some(found)) => found.as_str() == table,
        _ => false,
    }
}

fn is_none(alloc: Global, line: &str) -> bool {
    match read_peek(alloc, line.as_bytes()) {
        Ok(found) => found.is_none(),
        Err(_) => false,
    }
}

fn is_printed(alloc: Global, answer: PeekAnswer, text: &str) -> bool {
    match write_peek(alloc, answer) {
        Ok(line) => line.as_str() == text,
        Err(_) => false,
    }
}

#[test]
fn a_line_of_two_members_is_a_peek(rt: HostRuntime) -> Result<(), Fail> {
    let alloc = rt.alloc();
    let line = "{\"method\":\"peekTable\",\"table\":\"Table1\"}";
    assert!(rt; is_peek_at(alloc, line, "Table1"));
    let line = " { \"table\" : \"\" , \"method\" : \"peekTable\" } ";
    assert!(rt; is_peek_at(alloc, line, ""));
    Ok(())
}

#[test]
fn other_lines_are_no_peeks(rt: HostRuntime) -> Result<(), Fail> {
    let alloc = rt.alloc();
    assert!(rt; is_none(alloc, "{\"method\":\"fetchTable\",\"table\":\"Table1\"}"));
    assert!(rt; is_none(alloc, "{\"method\":\"peekTable\"}"));
    assert!(rt;
        is_none(
            alloc,
            "{\"method\":\"peekTable\",\"more\":1,\"table\":\"Table1\"}"
        )
    );
    assert!(rt; is_none(alloc, "{\"method\":\"peekTable\",\"table\":1}"));
    assert!(rt; is_none(alloc, "peekTable"));
    assert!(rt; is_none(alloc, ""));
    Ok(())
}

#[test]
fn an_answer_is_a_reply(rt: HostRuntime) -> Result<(), Fail> {
    let alloc = rt.alloc();
    let nothing = ViewActionList::from(Vec::new(alloc));
    assert!(rt;
        is_printed(
            alloc,
            PeekAnswer::Table(nothing),
            "{\"ok\":{\"actions\":[]}}"
        )
    );
    let text = "{\"error\":{\"code\":3,\"name\":\"NotOpen\"}}";
    assert!(rt; is_printed(alloc, PeekAnswer::NotOpen, text));
    let text = "{\"error\":{\"code\":21,\"name\":\"Lagged\"}}";
    assert!(rt; is_printed(alloc, PeekAnswer::Lagged, text));
    let text = "{\"error\":{\"code\":6,\"name\":\"NoSuchTable\"}}";
    assert!(rt; is_printed(alloc, PeekAnswer::NoSuchTable, text));
    Ok(())
}
