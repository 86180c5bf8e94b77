//! The inverse of a bundle, made while the bundle is done.

ghost use Rattle.std.specs.Prelude.{◌≡◌, [], ◌∷◌, ◌++◌, true, map, OnOk};
ghost use Rattle.doc_model.specs.DocumentLaws.{IsWhole};
ghost use Rattle.doc_model.specs.Inverse.{inverse};
ghost use Rattle.doc_model.specs.Valid.{valid};
ghost use Rattle.undo_bundles.specs.InverseSteps.{marked};

use action_inverse::inverse;
use doc_model::{DocAction, DocTables, Step, StepList};
use std::alloc::{AllocError, Global};
use std::marker::Model;

/// The steps that take back what was done so far. It is seen as these steps.
///
/// They are kept the last one first, so that those of a further action go behind them.
#[derive(Drop)]
pub struct BundleInverse {
    reversed: Vec<Step>,
}

impl Model for BundleInverse {
    ghost use Rattle.std.specs.Prelude.{List, reverse};
    ghost use Rattle.doc_model.specs.declared.action.Step.{Step};

    ghost Value = { List Step };

    ghost view = { λ b. reverse b.reversed.items };
}

impl BundleInverse {
    /// The inverse of no actions.
    ///
    /// Memory: none.
    pub fn new(alloc: Global) -> Self
        ensures { result ≡ [] }
    {
        BundleInverse {
            reversed: Vec::new(alloc),
        }
    }

    /// Notes what takes back a valid action that is about to be done, direct or not.
    ///
    /// Errors: out of memory. Memory and cost: as to the inverse of the action.
    pub fn note<D: DocTables>(
        &mut self,
        alloc: Global,
        tables: &D,
        action: &DocAction,
        direct: bool,
    ) -> Result<(), AllocError>
        requires whole { IsWhole (D.document tables.now) }
        requires valid { valid (D.document tables.now) action.now ≡ true }
        ensures { OnOk result (self.new
            ≡ map (marked direct) (inverse (D.document tables.now) action.now) ++ self.old) }
    {
        let mut actions = inverse(alloc, tables, action)?.into_vec();
        while let Some(action) = actions.pop() {
            self.put_first(Step { action, direct })?;
        }
        Ok(())
    }

    fn put_first(&mut self, step: Step) -> Result<(), AllocError>
        ensures { OnOk result (self.new ≡ step ∷ self.old) }
    {
        self.reversed.push(step)?;
        Ok(())
    }

    /// The steps.
    ///
    /// Memory: none.
    pub fn into_steps(self) -> StepList
        ensures { result ≡ self }
    {
        let mut steps = self.reversed;
        steps.reverse();
        StepList::from(steps)
    }
}
