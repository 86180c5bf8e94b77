//! Numbers of names.

ghost use Rattle.std.specs.Prelude.{◌≡◌, ◌<◌, [], IfOk, IfSome, Some, slice_get};
ghost use Rattle.std.specs.Option.{option_copied};
ghost use Rattle.dep_graph.specs.Names.{IsGrown, number_in};

use cell_types::{Name, Same};
use std::alloc::{AllocError, Global};
use std::collections::HashMap;
use std::marker::Model;

// How many places there are for guesses.
const PLACES: usize = 64;

/// Names of tables and columns by number. It is seen as the names in the order of their numbers.
///
/// The notes of runs ask for few names, over and over. So the last number that was found is kept as
/// a guess for names of the same length, first and last byte; where it is right, nothing is hashed.
#[derive(Drop)]
pub(crate) struct NameNumbers {
    alloc: Global,
    numbers: HashMap<String, u32>,
    names: Vec<Name>,
    guesses: [u32; PLACES],
}

impl Model for NameNumbers {
    ghost use Rattle.std.specs.Prelude.{List, ℕ, ◌≡◌};
    ghost use Rattle.std.specs.HashMap.{get_by_text};
    ghost use Rattle.dep_graph.specs.Names.{AreNumbered, number_in};

    ghost Value = { List (List ℕ) };

    ghost view = { λ n. n.names.items };

    ghost invariant = { λ n.
        ((name : List ℕ) → get_by_text n.numbers name ≡ number_in n.names.items name)
        × AreNumbered n.names.items };
}

// The place of the guess for a name.
fn place_of(name: &Name) -> usize
    ensures { result < 64 }
{
    let bytes = name.as_str().as_bytes();
    let (first, last) = match (bytes.first(), bytes.last()) {
        (Some(first), Some(last)) => (usize::from(*first), usize::from(*last)),
        _ => (0, 0),
    };
    (bytes.len() ^ first ^ last * 4) % PLACES
}

// The number, where the name stands at it.
fn confirmed(names: &[Name], number: u32, name: &Name) -> Option<u32>
    ensures { IfSome result (λ n. slice_get names.now n ≡ Some name.now) }
{
    if names.get(number as usize)?.same_as(name) {
        Some(number)
    } else {
        None
    }
}

impl NameNumbers {
    /// No names.
    ///
    /// Memory: none.
    pub fn new(alloc: Global) -> Self
        ensures { result ≡ [] }
    {
        NameNumbers {
            alloc,
            numbers: HashMap::new(alloc),
            names: Vec::new(alloc),
            guesses: [0; PLACES],
        }
    }

    /// The number of a name, where it has one.
    ///
    /// Memory: none.
    pub fn number(&self, name: &Name) -> Option<u32>
        ensures { result ≡ number_in self.now name.now }
    {
        match confirmed(&self.names, self.guesses[place_of(name)], name) {
            Some(number) => Some(number),
            None => self.numbers.get(name.as_str()).copied(),
        }
    }

    /// The name of a number.
    ///
    /// Memory: none.
    pub fn name(&self, number: u32) -> Option<&Name>
        ensures name { option_copied result ≡ slice_get self.now number }
        ensures number { IfSome result (λ name. number_in self.now name.now ≡ Some number) }
    {
        self.names.get(number as usize)
    }

    /// The number of a name, which is given one where it has none.
    ///
    /// Errors: out of memory, or 2^32 names have numbers; the numbers are then as they were.
    pub fn add(&mut self, name: &Name) -> Result<u32, AllocError>
        ensures ok { IfOk result (λ n. number_in self.new name.now ≡ Some n) }
        ensures grown { IsGrown self.old self.new }
    {
        let place = place_of(name);
        if let Some(number) = confirmed(&self.names, self.guesses[place], name) {
            return Ok(number);
        }
        let number = self.found_or_new(name)?;
        self.guesses[place] = number;
        Ok(number)
    }

    // The same, without a guess.
    fn found_or_new(&mut self, name: &Name) -> Result<u32, AllocError>
        ensures ok { IfOk result (λ n. number_in self.new name.now ≡ Some n) }
        ensures grown { IsGrown self.old self.new }
    {
        if let Some(number) = self.numbers.get(name.as_str()) {
            return Ok(*number);
        }
        let Ok(number) = u32::try_from(self.names.len()) else {
            return Err(AllocError);
        };
        let text = String::from_str(self.alloc, name.as_str())?;
        let name = name.clone()?;
        self.names.reserve(1)?;
        self.numbers.insert(text, number)?;
        self.names.push_reserved(name);
        Ok(number)
    }
}
