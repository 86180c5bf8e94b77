//! A document in memory by columns: each table its columns, its rows, and a list of cells for each
//! column.
//!
//! Stands on `cell_types` (values and names), `doc_model` (documents and what actions do),
//! `row_tables` (its definitions and laws of rows that come, go and are written, and the tables of
//! a new document), `list_ops` and the kit's `indexmap`. Used by `bundle_core` and `audit_run`.
//!
//! Promises: `ColumnTables` is `DocTables` as `RowTables` is, with the same clauses, so one may
//! stand in the other's place. The cells are seen row by row (`CellColumns`), so that what holds of
//! rows holds here. Each action changes its table in place and notes what takes that back; what is
//! put is taken back without memory. A table that comes is told to the schema tables in their
//! places; any other schema action makes these anew.
//! Costs: a cell is found by the logarithm of the rows, and nothing where they have no gap; its
//! column by a walk, or by hashing where there are many. Of more than eight tables it is noted
//! where each stood, by hashing: where its table still stands there that is found so, else by a
//! walk. A record action costs that much for each of its rows, and a move of what stands behind
//! each row that comes or goes, in each column; one that removes rows also asks for room for all
//! cells of its table. A table that comes costs its columns, and a walk over the tables. A schema
//! action on a table copies none of its cells. Where the schema tables are made anew, this costs
//! the number of all columns, with its logarithm for each; one that removes a table also asks for
//! room for all tables, without their cells.
//! Not promised: time. Where tables stood is forgotten after one is removed or renamed, or comes
//! before another, and noted anew by the next action.
//! Read first: specs/Crossed.antt, columns.rt, table.rt, change.rt with added.rt, written.rt and
//! removed.rt, then reshaped.rt, plain_change.rt, schema.rt, put.rt and tables.rt.
#![tactic(auto)]

mod added;
mod change;
mod columns;
mod copies;
mod fresh;
mod given;
mod in_place;
mod look;
mod places;
mod plain_change;
mod put;
mod removed;
mod reshaped;
mod rooms;
mod schema;
mod steps;
mod table;
mod tables;
mod written;

pub use columns::CellColumns;
pub use places::Places;
pub use table::ColumnTable;
pub use tables::{ColumnBack, ColumnTables};
