//! The rule that a writer and its readers keep between any two steps.
use crate::past::Past;
use crate::shot::Shot;
use atomic_table::{Join, Split};
use crossbeam_utils::rule::{Outcome, Protocol};
use std::collections::LinkedList;
use std::marker::PhantomData;

/// What one seat knows: histories that were shown, the newest first. No value of it is made.
pub struct View<O, E> {
    pub known: LinkedList<Past<O, E>>,
}

/// What is shown continues what each seat knows. `O` is the type of operations.
pub struct Course<O> {
    of: PhantomData<O>,
}

impl<T: Shot<O>, O: Drop> Protocol<T, View<T::Opening, T::Entry>> for Course<O> {
    ghost use Rattle.snap_reads.specs.Rule.{Keeps, newcomer};

    ghost holds = { Keeps T.state T.past T.stands };

    ghost first = { newcomer };
}

/// A look at the shot that is shown, or its change.
pub struct Look<O> {
    of: PhantomData<O>,
}

impl<T: Shot<O>, O: Drop> Outcome<T, View<T::Opening, T::Entry>> for Look<O> {
    ghost use Rattle.snap_reads.specs.Rule.{Sees};

    ghost then = { Sees T.state T.past T.stands };
}

/// What the writer tells a reader: the newest that it knows.
pub struct Notes;

impl<O, E> Split<View<O, E>> for Notes {
    ghost use Rattle.snap_reads.specs.Rule.{newest};

    ghost left = { λ v. v };

    ghost right = { newest };
}

impl<O, E> Join<View<O, E>> for Notes {
    ghost use Rattle.snap_reads.specs.Rule.{informed, newcomer};

    ghost both = { informed };

    ghost spent = { newcomer };
}
