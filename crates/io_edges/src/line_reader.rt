//! The lines of a source, one after the other, in whatever pieces its bytes come.
use crate::line_parts::take_part;
use crate::{Failed, Source};
use std::alloc::{AllocError, Global};
use std::marker::Model;

/// How many bytes one read asks for.
const BUFFER: usize = 65536;

/// How many reads that each took a byte a reader makes.
const TURNS: u64 = 1 << 32;

/// Why the reading of lines ended early.
#[derive(Clone, Copy)]
pub enum ReadEnd {
    /// A read failed.
    ReadFault,
    /// As many reads as a reader makes each took a byte.
    TurnsSpent,
    NoMemory,
}

/// What the reader came upon.
#[derive(Clone, Copy)]
pub enum NextLine {
    /// A line that a newline ended.
    Line,
    /// A last line that no newline ended. It is not empty.
    Last,
    /// The end of the input, with nothing before it.
    End,
}

/// Gives the lines of a source. It reads when no whole line is ahead.
///
/// Memory: a fixed buffer, and of each line one byte more than the longest line has, whatever its
/// length.
#[derive(Drop)]
pub struct LineReader {
    buffer: Vec<u8>,
    start: usize,
    end: usize,
    line: Vec<u8>,
    turns: u64,
}

impl Model for LineReader {
    ghost use Rattle.std.specs.Prelude.{vec_len, slice_range};
    ghost use Rattle.io_edges.specs.Reading.{LineState, IsInRoom};

    ghost Value = { LineState };

    ghost view = { λ r. record {
      ahead = slice_range r.buffer.items r.start r.end;
      line = r.line.items;
      turns = r.turns;
    } };

    ghost invariant = { λ r. IsInRoom r.start r.end (vec_len r.buffer) (vec_len r.line) r.turns };
}

impl LineReader {
    ghost use Rattle.std.specs.Prelude.{◌≡◌, ◌<◌, ◌≤◌, ◌+◌, ◌↔◌, ℕ, [], length, true, false, IsTrue, IfOk, OnErr, Ok, Err, MatchResult, IsErrOf, if◌then◌else◌};
    ghost use Rattle.std.specs.Io.KnownBytes.{Consumes, IsAtEnd, Keeps};
    ghost use Rattle.io_edges.specs.Causes.{Rose};
    ghost use Rattle.io_edges.specs.Reading.{TakesPart, work_left};
    ghost use Rattle.io_edges.specs.NextLine.{Reads, IsLast, is_more};

    /// A reader that has read nothing.
    pub fn new(alloc: Global) -> Result<Self, AllocError>
        ensures ahead { IfOk result (λ r. r.ahead ≡ []) }
        ensures line { IfOk result (λ r. r.line ≡ []) }
        ensures turns { IfOk result (λ r. r.turns ≡ 0) }
    {
        Ok(LineReader {
            buffer: vec![in alloc; 0u8; BUFFER]?,
            start: 0,
            end: 0,
            line: Vec::new(alloc),
            turns: 0,
        })
    }

    /// The line that was given last, without its newline, as far as it is kept.
    pub fn line(&self) -> &[u8]
        ensures line { result.now ≡ self.now.line }
        ensures bound { length result.now ≤ 1048577 }
    {
        &self.line
    }

    /// The size of the line that was given last.
    ///
    /// Units: bytes; a line that is too long counts as one byte more than the longest.
    pub fn size(&self) -> u32
        ensures size { result ≡ length self.now.line }
        ensures bound { result ≤ 1048577 }
    {
        self.line.len() as u32
    }

    /// Reads the next line, which `line` then lends.
    ///
    /// Errors: `ReadFault` where a read failed, `TurnsSpent` where no more reads are made,
    /// `NoMemory`.
    /// Of the line that had begun nothing more is given afterwards.
    pub fn next_line<S: Source>(&mut self, source: &mut S) -> Result<NextLine, ReadEnd>
        ensures reads { Reads result self.old self.new (S.left source.old) (S.left source.new) }
        ensures falls { IfOk result
            (λ next. next ≡ NextLine.Line → work_left self.new < work_left self.old) }
        ensures apart { S.outgoing source.new ≡ S.outgoing source.old }
        ensures later { S.faults source.old ≤ S.faults source.new }
        ensures fault { IsErrOf result ReadEnd.ReadFault
            → Rose (S.faults source.old) (S.faults source.new) }
        ensures spent { IsErrOf result ReadEnd.TurnsSpent → self.new.turns ≡ 4294967296 }
    {
        self.begin();
        loop {
            let Ok(whole) = self.take_ahead() else {
                return Err(ReadEnd::NoMemory);
            };
            if whole {
                return Ok(NextLine::Line);
            }
            if self.is_spent() {
                return Err(ReadEnd::TurnsSpent);
            }
            let Ok(more) = self.fill(source) else {
                return Err(ReadEnd::ReadFault);
            };
            if !more {
                return Ok(self.last());
            }
        }
    }

    // Forgets the line that was given last.
    fn begin(&mut self)
        ensures ahead { self.new.ahead ≡ self.old.ahead }
        ensures line { self.new.line ≡ [] }
        ensures turns { self.new.turns ≡ self.old.turns }
    {
        self.line.clear();
    }

    // Takes what is ahead up to a newline, or all of it, and says whether a newline was there.
    fn take_ahead(&mut self) -> Result<bool, AllocError>
        ensures part { IfOk result
            (λ whole. TakesPart self.old.ahead self.new.ahead self.old.line self.new.line whole) }
        ensures stays { OnErr result (self.new.ahead ≡ self.old.ahead) }
        ensures turns { self.new.turns ≡ self.old.turns }
    {
        let (len, whole) = take_part(&self.buffer[self.start..self.end], &mut self.line)?;
        self.start += len;
        Ok(whole)
    }

    fn is_spent(&self) -> bool
        ensures spent { IsTrue result ↔ (self.now.turns ≡ 4294967296) }
        ensures bound { self.now.turns ≤ 4294967296 }
    {
        self.turns == TURNS
    }

    // Reads once, when nothing is ahead. `false` is the end.
    fn fill<S: Source>(&mut self, source: &mut S) -> Result<bool, Failed>
        requires { self.old.turns < 4294967296 }
        ensures bytes { MatchResult result
            (λ _. Consumes (S.left source.old) (S.left source.new) self.new.ahead)
            (λ _. Keeps (S.left source.old) (S.left source.new)) }
        ensures some { result ≡ Ok true → 0 < length self.new.ahead }
        ensures few { length self.new.ahead ≤ 65536 }
        ensures end { result ≡ Ok false → (self.new.ahead ≡ []) × IsAtEnd (S.left source.new) }
        ensures fails { OnErr result (self.new.ahead ≡ []) }
        ensures line { self.new.line ≡ self.old.line }
        ensures turns { self.new.turns ≡ self.old.turns + (if is_more result then 1 else 0) }
        ensures apart { S.outgoing source.new ≡ S.outgoing source.old }
        ensures later { S.faults source.old ≤ S.faults source.new }
        ensures cause { OnErr result (Rose (S.faults source.old) (S.faults source.new)) }
    {
        self.start = 0;
        self.end = 0;
        let count = source.read(&mut self.buffer)?;
        self.end = count;
        if count == 0 {
            return Ok(false);
        }
        self.turns += 1;
        Ok(true)
    }

    // What the end of the input is: a last line, or nothing.
    fn last(&self) -> NextLine
        ensures { IsLast self.now.line result }
    {
        if self.line.is_empty() {
            NextLine::End
        } else {
            NextLine::Last
        }
    }
}
