//! The grammar of scripts: what a line says, and at which column it says something else.
#![tactic(auto)]

mod command;
mod grammar;
mod laws;
mod literals;
mod managers;
mod operands;
mod records;
mod recovery;
mod statement;
mod take;
mod transactions;
mod wanted;
mod words;
mod world;

pub use command::is_run_form;
pub use grammar::read_statement;
pub use laws::columns_tell_where_no_statement_goes_on;
pub use literals::{Literal, Literals};
pub use statement::{Form, KeyWord, Named, Operation, Recovery, Request, Setting, Side, Statement};
pub use wanted::Wanted;
pub use words::LineErr;
