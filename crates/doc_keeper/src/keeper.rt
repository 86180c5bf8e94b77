//! What keeps the records of a document.
ghost use Rattle.std.specs.Prelude.{◌≡◌, List, ℕ, Option, IfOk, option_map};
ghost use Rattle.doc_keeper.specs.Keeping.{HasCause, Tells, IsNext, Adds};

/// Why a call of a keeper failed.
#[derive(Clone, Copy, Debug, PartialEq, Eq)]
pub enum KeepFault {
    /// The outside failed, and the count rose.
    Failed,
    NoMemory,
}

/// Keeps records, numbered from 0 in the order in which they came.
pub trait Keeper: Drop {
    /// The records, where the keeper tells them.
    ghost records: { Self → Option (List (List ℕ)) };

    /// How often the keeper has failed. The count stands still at its type's end.
    ghost failures: { Self → ℕ };

    /// Makes ready for the other calls.
    ///
    /// Errors: `Failed`, where the count rose; `NoMemory`, where it stands. The records stay as
    /// they are.
    fn ready(&mut self) -> Result<(), KeepFault>
        ensures same { records self.new ≡ records self.old }
        ensures cause { HasCause (failures self.old) (failures self.new) result };

    /// The record of that number, or nothing where there is none.
    ///
    /// Errors: `Failed`, where the count rose; `NoMemory`, where it stands. The records stay as
    /// they are.
    fn load(&mut self, number: u64) -> Result<Option<Vec<u8>>, KeepFault>
        ensures same { records self.new ≡ records self.old }
        ensures told { IfOk result (λ o.
            Tells (records self.old) number (option_map (λ v. v.items) o)) }
        ensures cause { HasCause (failures self.old) (failures self.new) result };

    /// Keeps one more record. Its number is the count of those that are kept.
    ///
    /// Errors: `Failed`, where the count rose; `NoMemory`, where it stands. The told records are
    /// then as before.
    fn keep(&mut self, number: u64, bytes: &[u8]) -> Result<(), KeepFault>
        requires { IsNext (records self.old) number }
        ensures adds { Adds (records self.old) (records self.new) bytes.now result }
        ensures cause { HasCause (failures self.old) (failures self.new) result };

    /// How often the keeper has failed.
    ///
    /// Memory: none.
    fn faults(&self) -> u64
        ensures { result ≡ failures self.now };
}
