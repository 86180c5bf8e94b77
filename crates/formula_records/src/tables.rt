//! Tables whose records a value may hold.

ghost use Rattle.std.specs.Prelude.{◌≡◌, IfOk, OnOk};
ghost use Rattle.formula_records.specs.declared.tables.RecordTables.TheVariants.{Any};
ghost use Rattle.formula_records.specs.RecordTables.{none, only, union};

use cell_types::{Name, NameList};
use std::alloc::{AllocError, Global};

/// Tables whose records a value may hold: any, or these, each once or more.
#[derive(Drop)]
pub enum RecordTables {
    Any,
    These(NameList),
}

impl RecordTables {
    /// No table.
    ///
    /// Memory: none.
    pub fn none(alloc: Global) -> Self
        ensures { result ≡ none }
    {
        RecordTables::These(NameList::new(alloc))
    }

    /// One table.
    ///
    /// Errors: out of memory.
    pub fn only(alloc: Global, table: &Name) -> Result<Self, AllocError>
        ensures { IfOk result (λ q. q ≡ only table.now) }
    {
        let mut tables = RecordTables::none(alloc);
        tables.add(table)?;
        Ok(tables)
    }

    /// Adds a table.
    ///
    /// Errors: out of memory.
    pub fn add(&mut self, table: &Name) -> Result<(), AllocError>
        ensures { OnOk result (self.new ≡ union self.old (only table.now)) }
    {
        if let RecordTables::These(names) = self {
            names.push(table.clone()?)?;
        }
        Ok(())
    }

    /// Adds all tables.
    ///
    /// Memory: none.
    pub fn add_any(&mut self)
        ensures { self.new ≡ union self.old Any }
    {
        *self = RecordTables::Any;
    }
}
