//! The rows of each key.

ghost use Rattle.std.specs.Prelude.{◌≡◌, [], IsTrue, OnOk, OnErr};
ghost use Rattle.doc_model.specs.Rows.{has, IsAscending};
ghost use Rattle.lookup_index.specs.Under.{under_key, AllAscend, HasRoom, HasSameRows, IsPutUnder, IsTakenFrom, KeepsRoom};

use crate::rows::{put_reserved, put_row, take_row};
use std::alloc::{AllocError, Global};
use std::collections::HashMap;
use std::hash::Hash;
use std::marker::Model;

/// Rows by key. It is seen as its entries, which are read by `under_key` alone: the rows under a
/// key, ascending.
#[derive(Drop)]
pub struct KeyIndex<K: Eq + Hash + Drop> {
    lists: HashMap<K, Vec<u32>>,
}

impl<K: Eq + Hash + Drop> Model for KeyIndex<K> {
    ghost use Rattle.std.specs.Global.{Global};
    ghost use Rattle.std.specs.Prelude.{List, ℕ, Vec};
    ghost use Rattle.lookup_index.specs.Under.{AllAscend};

    ghost Value = { List (K × Vec ℕ Global) };

    ghost view = { λ m. m.lists.entries };

    ghost invariant = { λ m. AllAscend K.eq m.lists.entries };
}

impl<K: Eq + Hash + Drop> KeyIndex<K> {
    /// The index without rows.
    ///
    /// Memory: none.
    pub fn new(alloc: Global) -> Self
        ensures { (key : K) → under_key K.eq result key ≡ [] }
    {
        KeyIndex {
            lists: HashMap::new(alloc),
        }
    }

    /// The rows under a key, ascending.
    ///
    /// Memory: none.
    pub fn rows_for(&self, key: &K) -> &[u32]
        ensures rows { result.now ≡ under_key K.eq self.now key.now }
        ensures ascending { IsAscending result.now }
    {
        match self.lists.get(key) {
            Some(rows) => rows.as_slice(),
            None => &[],
        }
    }

    /// Puts a row under a key, where it is not there.
    ///
    /// Errors: out of memory; the rows under each key are then as they were. Cost: the logarithm of
    /// the rows under the key, and those that follow it.
    pub fn insert(&mut self, alloc: Global, key: K, row: u32) -> Result<(), AllocError>
        ensures ok { OnOk result (IsPutUnder K.eq self.old self.new key row) }
        ensures err { OnErr result (HasSameRows K.eq self.old self.new) }
        ensures room { KeepsRoom K.eq self.old self.new }
    {
        if let Some(rows) = self.lists.get_mut(&key) {
            return put_row(rows, row);
        }
        let mut rows = Vec::new(alloc);
        put_row(&mut rows, row)?;
        self.lists.insert(key, rows)?;
        Ok(())
    }

    /// Takes a row away from under a key, and tells whether it was there. Its room stays.
    ///
    /// Memory: none. Cost: as of `insert`.
    pub fn remove(&mut self, key: &K, row: u32) -> bool
        ensures value { result ≡ has (under_key K.eq self.old key.now) row }
        ensures rows { IsTakenFrom K.eq self.old self.new key.now row }
        ensures left { IsTrue result → HasRoom K.eq self.new key.now }
        ensures room { KeepsRoom K.eq self.old self.new }
    {
        match self.lists.get_mut(key) {
            Some(rows) => take_row(rows, row),
            None => false,
        }
    }

    /// Puts a row under a key that has room for it, as where a row was taken away before.
    ///
    /// Memory: none. Cost: as of `insert`.
    pub fn put_back(&mut self, key: &K, row: u32)
        requires { HasRoom K.eq self.old key.now }
        ensures rows { IsPutUnder K.eq self.old self.new key.now row }
        ensures room { KeepsRoom K.eq self.old self.new }
    {
        let Some(rows) = self.lists.get_mut(key) else {
            unreachable!()
        };
        put_reserved(rows, row);
    }
}
