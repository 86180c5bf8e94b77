//! A cell put under reads, and taken from there.

ghost use Rattle.std.specs.Prelude.{◌≡◌, ◌∷◌, [], true, OnOk, OnErr};
ghost use Rattle.dep_graph.specs.Readers.{links, HasSameLinks, KeepsBackable};
ghost use Rattle.dep_graph.specs.Records.{AreBackable, IsExchanged, IsJoined, IsParted, holds};
ghost use Rattle.dep_graph.specs.declared.numbers.ReadNumber.{ReadNumber};

use crate::numbers::{CellNumber, ReadNumber};
use crate::readers::Readers;
use std::alloc::{AllocError, Global};
use std::collections::HashSet;

// Takes a cell from under one read, unless that is kept.
fn unlink_one(readers: &mut Readers, cell: CellNumber, read: ReadNumber, kept: &HashSet<ReadNumber>)
    ensures links { IsParted readers.old readers.new (read ∷ []) kept.now.keys cell }
    ensures backable { KeepsBackable readers.old readers.new cell }
{
    if !kept.contains(&read) {
        readers.take(read, cell);
    }
}

/// Takes a cell from under reads, but for those that are kept.
///
/// Memory: none.
pub(crate) fn unlink(
    readers: &mut Readers,
    cell: CellNumber,
    gone: &[ReadNumber],
    kept: &HashSet<ReadNumber>,
)
    ensures links { IsParted readers.old readers.new gone.now kept.now.keys cell }
    ensures backable { KeepsBackable readers.old readers.new cell }
{
    for read in gone {
        unlink_one(readers, cell, *read, kept);
    }
}

/// Puts a cell under reads again.
///
/// Memory: none.
pub(crate) fn relink(readers: &mut Readers, cell: CellNumber, reads: &[ReadNumber])
    requires { AreBackable readers.old reads.now cell }
    ensures links { IsJoined readers.old readers.new reads.now cell }
    ensures backable { KeepsBackable readers.old readers.new cell }
{
    for read in reads {
        readers.put_back(*read, cell);
    }
}

// Takes away what was linked, and puts back what was there.
fn take_back(
    readers: &mut Readers,
    alloc: Global,
    cell: CellNumber,
    new: &[ReadNumber],
    had: &[ReadNumber],
)
    requires { (q : ReadNumber) → holds had.now q ≡ true → links readers.old q cell ≡ true }
    ensures { IsExchanged readers.old readers.new new.now had.now cell }
{
    readers.columns_law();
    unlink(readers, cell, new, &HashSet::new(alloc));
    relink(readers, cell, had);
}

/// Puts a cell under reads; it is under those that it had.
///
/// Errors: out of memory; under each read are then the same cells as before.
pub(crate) fn link(
    readers: &mut Readers,
    alloc: Global,
    cell: CellNumber,
    reads: &[ReadNumber],
    had: &[ReadNumber],
) -> Result<(), AllocError>
    requires { (q : ReadNumber) → links readers.old q cell ≡ holds had.now q }
    ensures ok { OnOk result (IsJoined readers.old readers.new reads.now cell) }
    ensures err { OnErr result (HasSameLinks readers.old readers.new) }
{
    for index in 0..reads.len() {
        if readers.add(alloc, reads[index], cell).is_err() {
            take_back(readers, alloc, cell, &reads[..index], had);
            return Err(AllocError);
        }
    }
    Ok(())
}
