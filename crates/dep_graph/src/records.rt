//! The reads of each cell, recorded in one map, and the cells of each read in another.

ghost use Rattle.std.specs.Prelude.{◌≡◌, [], true, false, IfOk, IsSome, OnOk, OnErr};
ghost use Rattle.std.specs.Map.{lookup};
ghost use Rattle.dep_graph.specs.Numbers.{is_cell};
ghost use Rattle.dep_graph.specs.Readers.{items_of, links};
ghost use Rattle.dep_graph.specs.Records.{AreBackable, HasSameReads, IsInverse, IsRecorded, holds, reads_under};
ghost use Rattle.dep_graph.specs.declared.numbers.ReadNumber.{ReadNumber};

use crate::differing::differing;
use crate::links::{link, relink, unlink};
use crate::numbers::{CellNumber, ReadNumber};
use crate::readers::Readers;
use std::alloc::{AllocError, Global};
use std::collections::{HashMap, HashSet};

/// The reads of each cell.
pub(crate) type Records = HashMap<CellNumber, Vec<ReadNumber>>;

/// The reads of a cell.
///
/// Memory: none.
pub(crate) fn recorded(reads: &Records, cell: CellNumber) -> &[ReadNumber]
    ensures { result.now ≡ reads_under reads.now.entries cell }
{
    match reads.get(&cell) {
        Some(list) => list.as_slice(),
        None => &[],
    }
}

fn items_of(list: &Option<Vec<ReadNumber>>) -> &[ReadNumber]
    ensures { result.now ≡ items_of list.now }
{
    match list {
        Some(list) => list.as_slice(),
        None => &[],
    }
}

fn set_of(alloc: Global, reads: &[ReadNumber]) -> Result<HashSet<ReadNumber>, AllocError>
    ensures { IfOk result (λ s. (q : ReadNumber) → holds s.keys q ≡ holds reads.now q) }
{
    let mut set = HashSet::with_capacity(alloc, reads.len())?;
    for read in reads {
        set.insert(*read)?;
    }
    Ok(set)
}

// Those reads that are there still, of reads that may be gone: no set is made where none is gone.
fn kept_of(
    alloc: Global,
    gone: &[ReadNumber],
    new: &[ReadNumber],
) -> Result<HashSet<ReadNumber>, AllocError>
    ensures { IfOk result (λ s. (q : ReadNumber) → holds gone.now q ≡ true
        → holds s.keys q ≡ holds new.now q) }
{
    if gone.is_empty() {
        Ok(HashSet::new(alloc))
    } else {
        set_of(alloc, new)
    }
}

/// Records the reads of a cell in the place of those before, and tells whether these are others.
///
/// Errors: out of memory; all is then recorded as before. Cost: where the reads are those before,
/// a comparison alone; else the reads between those that both begin with and end with alike.
pub(crate) fn record(
    reads: &mut Records,
    readers: &mut Readers,
    alloc: Global,
    cell: CellNumber,
    new: Vec<ReadNumber>,
) -> Result<bool, AllocError>
    requires { IsInverse reads.old.entries readers.old }
    ensures ok { OnOk result (IsRecorded reads.old.entries reads.new.entries cell new.items) }
    ensures same { IfOk result (λ are_others. are_others ≡ false
        → HasSameReads reads.old.entries reads.new.entries) }
    ensures err { OnErr result (HasSameReads reads.old.entries reads.new.entries) }
    ensures inverse { IsInverse reads.new.entries readers.new }
{
    if recorded(&*reads, cell) == new.as_slice() {
        return Ok(false);
    }
    reads.reserve(1)?;
    let had = recorded(&*reads, cell);
    let (gone, more) = differing(had, new.as_slice());
    let kept = kept_of(alloc, gone, new.as_slice())?;
    let gone = Vec::from_slice(alloc, gone)?;
    link(readers, alloc, cell, more, had)?;
    let Ok(before) = reads.insert(cell, new) else {
        unreachable!()
    };
    drop(before);
    unlink(readers, cell, gone.as_slice(), &kept);
    Ok(true)
}

/// Forgets the reads of a cell.
///
/// Memory: none.
pub(crate) fn forget(reads: &mut Records, readers: &mut Readers, alloc: Global, cell: CellNumber)
    requires { IsInverse reads.old.entries readers.old }
    ensures reads { IsRecorded reads.old.entries reads.new.entries cell [] }
    ensures inverse { IsInverse reads.new.entries readers.new }
{
    let before = reads.remove(&cell);
    unlink(readers, cell, items_of(&before), &HashSet::new(alloc));
}
