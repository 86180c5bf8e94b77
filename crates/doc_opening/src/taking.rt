//! One record taken into a document.
ghost use Rattle.std.specs.Prelude.{◌≡◌, ◌&&◌, nat_eq, nat_lt, true, if◌then◌else◌, Ok, Some, None, IfOk};
ghost use Rattle.doc_model.specs.Apply.{all_valid, apply, apply_all};
ghost use Rattle.doc_model.specs.DocumentLaws.{IsWhole};
ghost use Rattle.doc_model.specs.Valid.{valid};
ghost use Rattle.doc_opening.specs.Opening.{kept_on};

use doc_actions::{ApplyFault, apply};
use doc_model::{DocAction, DocTables};
use record_lines::{Kept, read_record};
use std::alloc::{AllocError, Global};

// Does the action where it is valid, and answers whether it is.
fn take_action<D: DocTables>(
    alloc: Global,
    tables: &mut D,
    action: &DocAction,
) -> Result<bool, AllocError>
    requires whole { IsWhole (D.document tables.old) }
    ensures valid { IfOk result (λ is. is ≡ valid (D.document tables.old) action.now) }
    ensures done { result ≡ Ok true
        → D.document tables.new ≡ apply (D.document tables.old) action.now }
    ensures whole { IsWhole (D.document tables.new) }
{
    match apply(alloc, tables, action) {
        Ok(_) => Ok(true),
        Err(ApplyFault::Invalid) => Ok(false),
        Err(ApplyFault::NoMemory) => Err(AllocError),
    }
}

// Does the actions in their order, and answers whether each is valid at its place.
fn take_actions<D: DocTables>(
    alloc: Global,
    tables: &mut D,
    actions: &[DocAction],
) -> Result<bool, AllocError>
    requires whole { IsWhole (D.document tables.old) }
    ensures valid { IfOk result (λ are. are ≡ all_valid (D.document tables.old) actions.now) }
    ensures done { result ≡ Ok true
        → D.document tables.new ≡ apply_all (D.document tables.old) actions.now }
    ensures whole { IsWhole (D.document tables.new) }
{
    for action in actions {
        if !take_action(alloc, tables, action)? {
            return Ok(false);
        }
    }
    Ok(true)
}

// Whether the record has that number, which is not the last one.
fn has_number(record: &Kept, number: u32) -> bool
    ensures { result ≡ (nat_lt number 4294967295 && nat_eq record.now.number number) }
{
    number < u32::MAX && record.number == number as u64
}

/// Takes the record that the bytes spell into the document, and answers whether it is good at its
/// place. Where it is not, some of its actions may be done.
///
/// Errors: out of memory; some of the actions may be done.
#[tactic(auto, unfolding(crate::specs::Opening::kept_on))]
pub(crate) fn take_record<D: DocTables>(
    alloc: Global,
    tables: &mut D,
    number: u32,
    bytes: &[u8],
) -> Result<bool, AllocError>
    requires whole { IsWhole (D.document tables.old) }
    ensures taken { IfOk result (λ is. kept_on (D.document tables.old) number bytes.now
        ≡ (if is then Some (D.document tables.new) else None)) }
    ensures whole { IsWhole (D.document tables.new) }
{
    let Some(record) = read_record(alloc, bytes)? else {
        return Ok(false);
    };
    if !has_number(&record, number) {
        return Ok(false);
    }
    take_actions(alloc, tables, record.actions.as_slice())
}
