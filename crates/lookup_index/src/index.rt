//! The rows of each bucket.

ghost use Rattle.std.specs.Prelude.{◌≡◌, [], ℕ, nat_eq, IsTrue, OnOk, OnErr};
ghost use Rattle.doc_model.specs.Rows.{has, IsAscending};
ghost use Rattle.lookup_index.specs.Under.{under, HasRoom, IsInserted, IsRemoved, IsSameIndex, KeepsRoom};

use crate::key_index::KeyIndex;
use std::alloc::{AllocError, Global};
use std::marker::Model;

/// Rows by bucket. It is seen as its entries, which are read by `under` alone: the rows under a
/// bucket, ascending.
#[derive(Drop)]
pub struct LookupIndex {
    rows: KeyIndex<u64>,
}

impl Model for LookupIndex {
    ghost use Rattle.std.specs.Global.{Global};
    ghost use Rattle.std.specs.Prelude.{List, ℕ, Vec};

    ghost Value = { List (ℕ × Vec ℕ Global) };

    ghost view = { λ m. m.rows };
}

impl LookupIndex {
    /// The index without rows.
    ///
    /// Memory: none.
    pub fn new(alloc: Global) -> Self
        ensures { (bucket : ℕ) → under result bucket ≡ [] }
    {
        LookupIndex {
            rows: KeyIndex::new(alloc),
        }
    }

    /// The rows under a bucket, ascending.
    ///
    /// Memory: none.
    pub fn rows_for(&self, bucket: u64) -> &[u32]
        ensures rows { result.now ≡ under self.now bucket }
        ensures ascending { IsAscending result.now }
    {
        self.rows.rows_for(&bucket)
    }

    /// Puts a row under a bucket, where it is not there.
    ///
    /// Errors: out of memory; the rows under each bucket are then as they were. Cost: the logarithm
    /// of the rows under the bucket, and those that follow it.
    pub fn insert(&mut self, alloc: Global, bucket: u64, row: u32) -> Result<(), AllocError>
        ensures ok { OnOk result (IsInserted self.old self.new bucket row) }
        ensures err { OnErr result (IsSameIndex self.old self.new) }
        ensures room { KeepsRoom nat_eq self.old self.new }
    {
        self.rows.insert(alloc, bucket, row)
    }

    /// Takes a row away from under a bucket, and tells whether it was there. Its room stays.
    ///
    /// Memory: none. Cost: as of `insert`.
    pub fn remove(&mut self, bucket: u64, row: u32) -> bool
        ensures value { result ≡ has (under self.old bucket) row }
        ensures rows { IsRemoved self.old self.new bucket row }
        ensures left { IsTrue result → HasRoom nat_eq self.new bucket }
        ensures room { KeepsRoom nat_eq self.old self.new }
    {
        self.rows.remove(&bucket, row)
    }

    /// Puts a row under a bucket that has room for it, as where a row was taken away before.
    ///
    /// Memory: none. Cost: as of `insert`.
    pub fn put_back(&mut self, bucket: u64, row: u32)
        requires { HasRoom nat_eq self.old bucket }
        ensures rows { IsInserted self.old self.new bucket row }
        ensures room { KeepsRoom nat_eq self.old self.new }
    {
        self.rows.put_back(&bucket, row);
    }
}
