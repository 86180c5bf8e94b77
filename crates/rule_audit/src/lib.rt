//! Rule audits: whether verdicts on what a user writes can tell more than the user's view does.
//!
//! Stands on `acl_rules` (chains of rules), `acl_reading` (what rules let a user read),
//! `censored_view` (what is shown of a document), `acl_formula` (what rules mention),
//! `doc_readers`, `doc_model`, `formula_parse` and `cell_types`. For the command `audit`.
//!
//! Promises: `audit` is the audit of specs/Closed.antt, for each book of rules, user and document:
//! `Closed` exactly where no rule that is reached mentions what is not safe and no formula of a
//! shown column is hidden, else the first fault, tables and columns by id. `audit_laws`: an open
//! column is shown, and each row may be read in it; where no rule that is reached mentions what is
//! not safe, a decision is the same whatever else the rows hold. `closed_laws`: the view tells each
//! cell of an open column, so of a closed user the decision on a row that goes rests on the view.
//! Not promised: that an audit says `Closed` wherever it could, nor anything of bundles of several
//! actions, of limits, or of the ids that new rows, columns and tables get.
//! Costs: no row of the document is read. The rules of each table are walked once for each of its
//! columns that is shown, and what the rules of all the table mention is looked up among its open
//! columns once for each permission.
//! Read first: specs/Open.antt, specs/Reached.antt and specs/Closed.antt, then opening.rt,
//! reaching.rt and faults.rt; specs/SeenLaws.antt.
#![tactic(auto)]

mod faults;
mod laws;
mod opening;
mod question;
mod reaching;
mod stop;
mod walking;
mod whole;

pub use faults::{Audit, audit_of};
pub use laws::{audit_laws, closed_laws};
pub use stop::Stop;
pub use whole::audit;
