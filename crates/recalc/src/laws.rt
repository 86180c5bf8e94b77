//! Laws of evaluated cells, each proved as the contract of a function that does nothing.

ghost use Rattle.recalc.specs.Current.{StaysPlainLaw};
ghost use Rattle.recalc.specs.FilledLaws.{LaidOutLaw, SamePartsLaw};
ghost use Rattle.recalc.specs.MayLose.{MayLoseLaw};
ghost use Rattle.recalc.specs.SheetLaws.{CircularLaw, FuelLaw, SettledLaw, ValueLaw};
ghost use Rattle.recalc.specs.Watched.{WatchedLaw};

/// More fuel changes no value.
pub fn fuel_law()
    ensures { FuelLaw }
{}

/// As much fuel as there are formula cells gives each value that some fuel gives.
pub fn settled_law()
    ensures { SettledLaw }
{}

/// What some fuel gives is the cell's value.
pub fn value_law()
    ensures { ValueLaw }
{}

/// A cell is circular exactly where no fuel gives it a value.
pub fn circular_law()
    ensures { CircularLaw }
{}

/// A whole document with its values in place is laid out as views need it.
pub fn laid_out_law()
    ensures { LaidOutLaw }
{}

/// A document with its values in place has its tables, columns and rows; cells alone differ.
pub fn same_parts_law()
    ensures { SamePartsLaw }
{}

/// A document without formula columns has none after an action that gives no column a formula.
pub fn stays_plain_law()
    ensures { StaysPlainLaw }
{}

/// What an action loses stands in formula columns or in rows that it touches.
pub fn watched_law()
    ensures { WatchedLaw }
{}

/// What an action loses stands in formula columns, or in rows and columns of data that it writes or
/// removes.
pub fn may_lose_law()
    ensures { MayLoseLaw }
{}
