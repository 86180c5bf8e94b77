//! Plan: lines in whatever pieces (`gives_lines`, `keeps_a_front_of_a_long_line`), the listed
//! faults of sources and sinks (`fails_at_listed_calls`, `sink_keeps_its_room`), the buffer in
//! front of a sink (`outbox_gathers`, `outbox_hands_on_faults`), both sides of a link
//! (`links_have_two_sides`), the edge over readers and writers
//! of std (`std_streams`), and records kept in memory (`keeps_records`).

use crate::texts::is_text;
use doc_keeper::*;
use io_edges::*;
use std::alloc::{AllocError, Global};

// How a line ended.
fn mark_of(next: Result<NextLine, ReadEnd>) -> char {
    match next {
        Ok(NextLine::Line) => '|',
        Ok(NextLine::Last) => '$',
        Ok(NextLine::End) => '.',
        Err(ReadEnd::ReadFault) => '!',
        Err(_) => '?',
    }
}

fn push_bytes(out: &mut String, bytes: &[u8]) -> Result<(), AllocError> {
    for byte in bytes {
        out.push(char::from(*byte))?;
    }
    Ok(())
}

// Adds the next line and its mark, and gives the mark.
fn push_next<S: Source>(
    out: &mut String,
    reader: &mut LineReader,
    source: &mut S,
) -> Result<char, AllocError> {
    let mark = mark_of(reader.next_line(source));
    if mark == '|' || mark == '$' {
        push_bytes(out, reader.line())?;
    }
    out.push(mark)?;
    Ok(mark)
}

// Adds up to 100 lines, each with its mark.
fn push_lines<S: Source>(
    out: &mut String,
    reader: &mut LineReader,
    source: &mut S,
) -> Result<(), AllocError> {
    for _ in 0..100 {
        let mark = push_next(out, reader, source)?;
        if mark == '.' || mark == '?' {
            return Ok(());
        }
    }
    Ok(())
}

// Each line that a reader gives, with a mark for how it ended.
fn marked_lines<S: Source>(
    alloc: Global,
    reader: &mut LineReader,
    source: &mut S,
) -> Result<String, AllocError> {
    let mut out = String::new(alloc);
    push_lines(&mut out, reader, source)?;
    Ok(out)
}

fn are_lines<S: Source>(
    alloc: Global,
    reader: &mut LineReader,
    source: &mut S,
    want: &str,
) -> bool {
    is_text(&marked_lines(alloc, reader, source), want)
}

fn gives<S: Source>(alloc: Global, source: &mut S, want: &str) -> bool {
    let Ok(mut reader) = LineReader::new(alloc) else {
        return false;
    };
    are_lines(alloc, &mut reader, source, want)
}

fn text_gives(alloc: Global, text: &str, want: &str) -> bool {
    let Ok(bytes) = Vec::from_slice(alloc, text.as_bytes()) else {
        return false;
    };
    gives(alloc, &mut SureSource::new(bytes), want)
}

// Texts, and their lines with marks.
static LINES: [(&str, &str); 6] = [
    ("", "."),
    ("\n", "|."),
    ("a", "a$."),
    ("a\n", "a|."),
    ("a\nbc", "a|bc$."),
    ("\n\nx\r\n ", "||x\r| $."),
];

#[test]
fn gives_lines(rt: HostRuntime) {
    for row in &LINES {
        assert!(rt; text_gives(rt.alloc(), row.0, row.1), "not {}", row.1);
    }
}

// A source over the text that fails at these calls.
fn failing_source(alloc: Global, text: &str, calls: &[u64]) -> Result<MemSource, AllocError> {
    let bytes = Vec::from_slice(alloc, text.as_bytes())?;
    let failing = Vec::from_slice(alloc, calls)?;
    Ok(MemSource::new(bytes, failing))
}

fn failing_gives(alloc: Global, text: &str, calls: &[u64], want: &str) -> bool {
    let Ok(mut source) = failing_source(alloc, text, calls) else {
        return false;
    };
    gives(alloc, &mut source, want)
}

#[test]
fn fails_at_listed_calls(rt: HostRuntime) {
    assert!(rt; failing_gives(rt.alloc(), "a\nb\nc", &[0, 2], "!a|b|!."));
}

// A line of 1,048,580 bytes, and a short one.
fn long_and_short(alloc: Global) -> Result<Vec<u8>, AllocError> {
    let mut text = vec![in alloc; b'x'; 1_048_580]?;
    text.extend_from_slice(b"\nab\n")?;
    Ok(text)
}

// The size of the next line; 0 where none is whole.
fn next_size<S: Source>(reader: &mut LineReader, source: &mut S) -> u32 {
    match reader.next_line(source) {
        Ok(NextLine::Line) => reader.size(),
        _ => 0,
    }
}

fn keeps_fronts<S: Source>(reader: &mut LineReader, source: &mut S) -> bool {
    next_size(reader, source) == 1_048_577
        && next_size(reader, source) == 2
        && reader.line() == b"ab".as_slice()
}

fn keeps_front_of<S: Source>(alloc: Global, source: &mut S) -> bool {
    let Ok(mut reader) = LineReader::new(alloc) else {
        return false;
    };
    keeps_fronts(&mut reader, source)
}

fn keeps_a_front(alloc: Global) -> bool {
    let Ok(text) = long_and_short(alloc) else {
        return false;
    };
    keeps_front_of(alloc, &mut SureSource::new(text))
}

#[test]
fn keeps_a_front_of_a_long_line(rt: HostRuntime) {
    assert!(rt; keeps_a_front(rt.alloc()));
}

// A sink with this room that fails at these calls.
fn sink_of(alloc: Global, room: usize, calls: &[u64]) -> Result<MemSink, AllocError> {
    MemSink::new(alloc, room, Vec::from_slice(alloc, calls)?)
}

// On a sink with room for five bytes that fails at its second and its fifth call.
fn is_room_kept(sink: &mut MemSink) -> bool {
    sink.write(b"abc") == Ok(3)
        && sink.write(b"d") == Err(Failed)
        && sink.write(b"def") == Ok(2)
        && sink.flush() == Ok(())
        && sink.flush() == Err(Failed)
        && sink.write(b"g") == Err(Failed)
        && sink.write(b"") == Ok(0)
        && sink.bytes() == b"abcde".as_slice()
}

fn keeps_room(alloc: Global) -> bool {
    let Ok(mut sink) = sink_of(alloc, 5, &[1, 4]) else {
        return false;
    };
    is_room_kept(&mut sink)
}

#[test]
fn sink_keeps_its_room(rt: HostRuntime) {
    assert!(rt; keeps_room(rt.alloc()));
}

fn is_gathered(outbox: &mut Outbox, sink: &mut MemSink, many: &[u8]) -> bool {
    outbox.put(sink, b"ab") == Ok(())
        && outbox.put(sink, b"c") == Ok(())
        && sink.bytes().len() == 0
        && outbox.put(sink, many) == Ok(())
        && sink.bytes().len() == 65_538
        && outbox.put(sink, b"e") == Ok(())
        && outbox.flush(sink) == Ok(())
        && sink.bytes().len() == 65_539
        && sink.bytes().starts_with(b"abcd")
        && sink.bytes().ends_with(b"de")
}

fn gathers_many(alloc: Global, sink: &mut MemSink, many: &[u8]) -> bool {
    let Ok(mut outbox) = Outbox::new(alloc) else {
        return false;
    };
    is_gathered(&mut outbox, sink, many)
}

fn gathers_in(alloc: Global, sink: &mut MemSink) -> bool {
    let Ok(many) = vec![in alloc; b'd'; 65_535] else {
        return false;
    };
    gathers_many(alloc, sink, &many)
}

fn gathers(alloc: Global) -> bool {
    let Ok(mut sink) = sink_of(alloc, 200_000, &[]) else {
        return false;
    };
    gathers_in(alloc, &mut sink)
}

#[test]
fn outbox_gathers(rt: HostRuntime) {
    assert!(rt; gathers(rt.alloc()));
}

// On a sink with room for three bytes.
fn is_handed_on(outbox: &mut Outbox, sink: &mut MemSink) -> bool {
    outbox.put(sink, b"abcd") == Ok(())
        && outbox.flush(sink) == Err(Failed)
        && sink.bytes() == b"abc".as_slice()
        && outbox.flush(sink) == Ok(())
        && write_all(sink, b"e") == Err(Failed)
}

fn hands_on_in(alloc: Global, sink: &mut MemSink) -> bool {
    let Ok(mut outbox) = Outbox::new(alloc) else {
        return false;
    };
    is_handed_on(&mut outbox, sink)
}

fn hands_on(alloc: Global) -> bool {
    let Ok(mut sink) = sink_of(alloc, 3, &[]) else {
        return false;
    };
    hands_on_in(alloc, &mut sink)
}

#[test]
fn outbox_hands_on_faults(rt: HostRuntime) {
    assert!(rt; hands_on(rt.alloc()));
    assert!(rt; write_all(&mut SureSink, b"e") == Ok(()));
}

// A link over the text with room for eight bytes, which fails at its second read and at its first
// write.
fn failing_link(alloc: Global, text: &str) -> Result<MemLink, AllocError> {
    Ok(MemLink::new(failing_source(alloc, text, &[1])?, sink_of(alloc, 8, &[0])?))
}

// Writes between the reads leave what is left, and reads leave what was written.
fn is_two_sided<L: Link>(reader: &mut LineReader, link: &mut L) -> bool {
    link.write(b"x") == Err(Failed)
        && mark_of(reader.next_line(link)) == '|'
        && reader.line() == b"a".as_slice()
        && write_all(link, b"one\n") == Ok(())
        && mark_of(reader.next_line(link)) == '!'
        && write_all(link, b"two\n") == Ok(())
        && mark_of(reader.next_line(link)) == '.'
        && write_all(link, b"3") == Err(Failed)
}

fn serves_both(alloc: Global, link: &mut MemLink) -> bool {
    let Ok(mut reader) = LineReader::new(alloc) else {
        return false;
    };
    is_two_sided(&mut reader, link) && link.bytes() == b"one\ntwo\n".as_slice()
}

fn serves(alloc: Global) -> bool {
    let Ok(mut link) = failing_link(alloc, "a\n") else {
        return false;
    };
    serves_both(alloc, &mut link)
}

#[test]
fn links_have_two_sides(rt: HostRuntime) {
    assert!(rt; serves(rt.alloc()));
}

fn takes_all<O: Sink>(sink: &mut O) -> bool {
    write_all(sink, b"ab") == Ok(()) && sink.flush() == Ok(())
}

#[test]
fn std_streams(rt: HostRuntime) {
    let mut source = StdSource::new(b"a\nb".as_slice());
    assert!(rt; gives(rt.alloc(), &mut source, "a|b$."));
    let mut sink = StdSink::new(Vec::<u8>::new(rt.alloc()));
    assert!(rt; takes_all(&mut sink));
}

// Whether the record of that number is this text.
fn is_kept(keeper: &mut MemKeeper, number: u64, want: &str) -> bool {
    match keeper.load(number) {
        Ok(Some(bytes)) => bytes.as_slice() == want.as_bytes(),
        Ok(None) => want == "-",
        Err(_) => false,
    }
}

// A keeper that fails at its second call keeps the record at its third one.
fn keeps_after_a_fault(alloc: Global) -> bool {
    let Ok(failing) = vec![in alloc; 1u64] else {
        return false;
    };
    let mut keeper = MemKeeper::new(alloc, failing);
    let Ok(()) = keeper.ready() else {
        return false;
    };
    let Err(KeepFault::Failed) = keeper.keep(0, b"ab".as_slice()) else {
        return false;
    };
    let Ok(()) = keeper.keep(0, b"cd".as_slice()) else {
        return false;
    };
    keeper.faults() == 1 && is_kept(&mut keeper, 0, "cd") && is_kept(&mut keeper, 1, "-")
}

#[test]
fn keeps_records(rt: HostRuntime) {
    assert!(rt; keeps_after_a_fault(rt.alloc()));
}
