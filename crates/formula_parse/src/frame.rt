//! What the parser keeps: what is open round the place, and what may come next.
//!
//! | mode                 | the next token                                  |
//! |----------------------|-------------------------------------------------|
//! | `Operand`            | begins an operand                               |
//! | `FirstItem`          | the same, or ends a list or arguments           |
//! | `Operator`           | goes on behind a formula                        |
//! | `AfterNot`, `AfterIs`| is the second word of an operator, or none      |
//! | `AfterDot`           | is the name of an attribute                     |
//! | `AfterName`          | opens arguments, or is a point                  |
//! | `AfterPoint`         | is `all`, `lookupRecords` or `lookupOne`        |
//! | `AfterLookup`        | opens keys                                      |
//! | `FirstKey`           | is the name of a key, or ends the keys          |
//! | `NextKey`            | is the name of a key                            |
//! | `AfterKey`           | is `=`                                          |
//! | `AfterSubject`       | is the point behind `user`, `rec` or `newRec`   |
//! | `SubjectPoint`       | is the name of what is asked for                |
//! | `UserPoint`          | is the second name behind `user`                |

ghost use Rattle.std.specs.Prelude.{◌≡◌, ℕ, ◌+◌, ◌≤◌, List, [], ◌∷◌, ◌++◌, Bool, Option, Some, None, IfNone, IfSome, OnOk};
ghost use Rattle.formula_parse.specs.Machine.{formula_of, no_frames, room, room_in, is_last, opened};
ghost use Rattle.formula_lex.specs.Lexed.{Gives};
ghost use Rattle.formula_parse.specs.Parsed.{taken};

use crate::open_keys::OpenKeys;
use crate::operator::{BinaryOp, LookupKind, PrefixOp};
use crate::rule::Subject;
use crate::tree::{ArgumentList, Formula};
use cell_types::Name;
use formula_lex::Stop;
use std::alloc::{AllocFailed, Global};
use std::marker::Model;

/// What is open round the place, and waits for a formula.
#[derive(Drop)]
pub enum Frame {
    Left(Formula, BinaryOp),
    Prefix(PrefixOp),
    Condition(Formula),
    Otherwise(Formula, Formula),
    Parentheses,
    Items(ArgumentList),
    Arguments(Name, ArgumentList),
    Key(LookupKind, Name, OpenKeys, Name),
}

/// What may come next.
#[derive(Drop)]
pub enum Mode {
    Operand,
    FirstItem,
    Operator(Formula),
    AfterNot(Formula),
    AfterIs(Formula),
    AfterDot(Formula),
    AfterName(Name),
    AfterPoint(Name),
    AfterLookup(LookupKind, Name),
    FirstKey(LookupKind, Name),
    NextKey(LookupKind, Name, OpenKeys),
    AfterKey(LookupKind, Name, OpenKeys, Name),
    AfterSubject(Subject),
    SubjectPoint(Subject),
    UserPoint(Name),
}

/// The frames, which clauses see innermost first.
#[derive(Drop)]
pub struct Stack {
    frames: Vec<Frame>,
}

impl Model for Stack {
    ghost use Rattle.std.specs.Prelude.{List, reverse};
    ghost use Rattle.std.specs.Coded.{coded_list};
    ghost use Rattle.formula_parse.specs.declared.frame.Frame.{Frame};
    ghost use Rattle.formula_parse.specs.contracts.frame.Frame as frame;

    ghost Value = { List Frame };

    ghost coded = { coded_list frame.the_row.coded };

    ghost view = { λ s. reverse s.frames.items };
}

impl Frame {
    /// Whether it ends with the formula in it.
    pub fn is_last(&self) -> bool
        ensures { result ≡ is_last self.now }
    {
        match self {
            Frame::Left(_, _) | Frame::Prefix(_) | Frame::Otherwise(_, _) => true,
            Frame::Condition(_)
            | Frame::Parentheses
            | Frame::Items(_)
            | Frame::Arguments(_, _)
            | Frame::Key(_, _, _, _) => false,
        }
    }

    /// The least level of a formula that may stand in it.
    pub fn room(&self) -> u8
        ensures { result ≡ room_in self.now }
    {
        match self {
            Frame::Left(_, op) => op.right(),
            Frame::Prefix(op) => op.level(),
            Frame::Condition(_) => 1,
            Frame::Otherwise(_, _)
            | Frame::Parentheses
            | Frame::Items(_)
            | Frame::Arguments(_, _)
            | Frame::Key(_, _, _, _) => 0,
        }
    }
}

impl Mode {
    /// The formula behind which an operator may come, where there is one.
    pub fn into_formula(self) -> Option<Formula>
        ensures { result ≡ formula_of self }
    {
        match self {
            Mode::Operator(tree) => Some(tree),
            other => {
                drop(other);
                None
            }
        }
    }
}

impl Stack {
    /// No frame.
    pub fn new(alloc: Global) -> Self
        ensures { result ≡ [] }
    {
        let frames = Vec::new(alloc);
        Stack { frames }
    }

    /// Opens a frame.
    pub fn push(&mut self, frame: Frame) -> Result<(), AllocFailed<Frame>>
        ensures { OnOk result (self.new ≡ frame ∷ self.old) }
    {
        self.frames.push(frame)
    }

    /// Whether no frame is open.
    pub fn is_empty(&self) -> bool
        ensures { result ≡ no_frames self.now }
    {
        self.frames.is_empty()
    }

    /// Opens a frame, in which an operand is wanted.
    pub fn open(&mut self, frame: Frame) -> Result<Mode, Stop>
        ensures { Gives (λ m. (self.new, m)) result (opened frame self.old) }
    {
        self.push(frame)?;
        Ok(Mode::Operand)
    }

    /// Takes the innermost frame.
    pub fn pop(&mut self) -> Option<Frame>
        ensures none { IfNone result (self.old ≡ []) }
        ensures some { IfSome result (λ f. self.old ≡ f ∷ self.new) }
    {
        self.frames.pop()
    }

    /// The least level of a formula that may stand in the innermost frame.
    pub fn room(&self) -> u8
        ensures { result ≡ room self.now }
    {
        match self.frames.last() {
            Some(frame) => frame.room(),
            None => 0,
        }
    }

    /// Takes the innermost frame, where it ends with its formula and its level is from `level` on.
    pub fn take_closing(&mut self, level: u8) -> Option<Frame>
        ensures { (result, self.new) ≡ taken level self.old }
    {
        let closes = match self.frames.last() {
            Some(frame) => frame.is_last() && level <= frame.room(),
            None => false,
        };
        if closes { self.frames.pop() } else { None }
    }
}
