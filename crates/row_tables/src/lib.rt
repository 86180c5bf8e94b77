//! A document in memory as plain tables: each table its columns, its rows, and a list of cells for
//! each row.
//!
//! Stands on `cell_types` (values and names) and `doc_model` (documents and what actions do).
//!
//! Promises: `RowTables` is `DocTables` over a vector of tables. A record action changes its table
//! in place, to exactly the table of the definitions, and notes what takes that back; a schema
//! action does the same to the vector, and makes the schema tables anew from the tables that they
//! describe. What is put is taken back without memory.
//! Costs: a cell is found by the logarithm of the rows, and a walk over the columns. A record
//! action costs that much for each of its rows, the cells that it makes, and a move of what stands
//! behind each row that comes or goes; one that removes rows also asks for room for all rows of its
//! table. A schema action makes the two schema tables, in the square of the number of columns, and
//! copies the table that it changes; where it adds or removes a column it finds each cell of that
//! table by a walk over its rows. The other tables stay where they are, or move by one place; an
//! action that removes a table also asks for room for all tables, without their rows.
//! Read first: table.rt, change.rt with added.rt, written.rt and removed.rt, then columns.rt,
//! plain_change.rt, schema.rt, put.rt and tables.rt.
#![tactic(auto)]

mod added;
mod change;
mod columns;
mod copies;
mod described;
mod fill;
mod given;
mod in_place;
mod known;
mod look;
mod metadata;
mod plain_change;
mod put;
mod removed;
mod schema;
mod steps;
mod table;
mod tables;
mod written;

pub use table::RowTable;
pub use tables::{RowBack, RowTables};
