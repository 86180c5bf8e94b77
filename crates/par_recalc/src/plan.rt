//! Formula columns, and their levels.

ghost use Rattle.std.specs.Prelude.{◌≡◌, ◌<◌, length, slice_get, Some};

use cell_types::{Name, Sequence};
use formula_parse::Formula;
use std::marker::Model;

/// A formula column.
#[derive(Drop)]
pub struct ColumnFormula {
    pub table: Name,
    /// Its id.
    pub column: Name,
    pub formula: Formula,
}

/// Formula columns in order.
pub type FormulaList = Sequence<ColumnFormula>;

/// Formula columns with their levels, each an ascending list of places among them.
#[derive(Drop)]
pub struct LevelPlan<'a> {
    pub(crate) formulas: &'a [ColumnFormula],
    pub(crate) levels: Vec<Vec<usize>>,
}

impl<'a> Model for LevelPlan<'a> {
    ghost use Rattle.std.specs.Prelude.{map};
    ghost use Rattle.formula_parse.specs.contracts.tree.Formula as formula;
    ghost use Rattle.par_recalc.specs.Plan.{Plan};
    ghost use Rattle.std.specs.Coded.{codes};

    ghost Value = { Plan };

    ghost coded = { Prim.hlevel (codes, formula.the_row.coded) };

    ghost view = { λ p. record {
      formulas = p.formulas.now;
      levels = map (λ l. l.items) p.levels.items;
    } };
}

impl<'a> LevelPlan<'a> {
    /// How many levels there are.
    ///
    /// Memory: none.
    pub fn count(&self) -> usize
        ensures { result ≡ length self.now.levels }
    {
        self.levels.len()
    }

    /// The places of the columns of a level, ascending.
    ///
    /// Memory: none.
    pub fn places(&self, level: usize) -> &[usize]
        requires { level < length self.now.levels }
        ensures { slice_get self.now.levels level ≡ Some result.now }
    {
        &self.levels[level]
    }

    /// The columns.
    ///
    /// Memory: none.
    pub fn formulas(&self) -> &'a [ColumnFormula]
        ensures { result.now ≡ self.now.formulas }
    {
        self.formulas
    }
}
