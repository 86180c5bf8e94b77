//! A valid action done.

ghost use Rattle.std.specs.Prelude.{◌≡◌, ◌↔◌, false, true, Err, IfOk, OnErr, OnOk};
ghost use Rattle.doc_model.specs.Apply.{apply};
ghost use Rattle.doc_model.specs.DocumentLaws.{IsWhole};
ghost use Rattle.doc_model.specs.Valid.{valid};
ghost use Rattle.doc_actions.specs.declared.applying.ApplyFault.TheVariants.{Invalid};

use crate::validity::is_valid;
use doc_model::{DocAction, DocTables};
use std::alloc::{AllocError, Global};
use std::fmt;

/// Why an action was not done.
#[derive(Clone, Copy, Debug)]
pub enum ApplyFault {
    /// The action is not valid there.
    Invalid,
    /// Memory is wanting; the action is valid.
    NoMemory,
}

impl fmt::Display for ApplyFault {
    ghost use Rattle.std.specs.Prelude.{Some};
    ghost use Rattle.doc_actions.specs.Message.{message_of};

    ghost output = { λ fault. Some (message_of fault) };

    fn fmt<W: fmt::Write>(&self, f: &mut fmt::Formatter<W>) -> fmt::Result {
        match self {
            ApplyFault::Invalid => write!(f, "the action is not valid"),
            ApplyFault::NoMemory => write!(f, "out of memory"),
        }
    }
}

impl std::error::Error for ApplyFault {}

impl From<AllocError> for ApplyFault {
    ghost use Rattle.std.specs.Prelude.{◌≡◌};
    ghost use Rattle.doc_actions.specs.declared.applying.ApplyFault.TheVariants.{NoMemory};

    ghost from_gives = { λ _ made. made ≡ NoMemory };

    fn from(_fault: AllocError) -> ApplyFault {
        ApplyFault::NoMemory
    }
}

/// Does an action where it is valid, and hands out what takes it back.
///
/// Errors: `Invalid`, and out of memory; the document is then as it was.
/// Memory: what the store takes to change the document, and a copy of given rows that do not
/// ascend; want of the latter is no fault.
pub fn apply<D: DocTables>(
    alloc: Global,
    tables: &mut D,
    action: &DocAction,
) -> Result<D::Back, ApplyFault>
    requires whole { IsWhole (D.document tables.old) }
    ensures ok { OnOk result (D.document tables.new ≡ apply (D.document tables.old) action.now) }
    ensures valid { OnOk result (valid (D.document tables.old) action.now ≡ true) }
    ensures fit { IfOk result (λ back. D.fits back (D.document tables.new)) }
    ensures back { IfOk result (λ back.
        D.undone back (D.document tables.new) ≡ D.document tables.old) }
    ensures invalid { (result ≡ Err Invalid) ↔ (valid (D.document tables.old) action.now ≡ false) }
    ensures err { OnErr result (D.document tables.new ≡ D.document tables.old) }
    ensures kept { IsWhole (D.document tables.new) }
{
    if !is_valid(alloc, tables, action) {
        return Err(ApplyFault::Invalid);
    }
    Ok(tables.put(action)?)
}
