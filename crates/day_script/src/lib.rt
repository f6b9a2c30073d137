//! The script of a day of transactions, line by line, and the words that ask for one.
#![tactic(auto)]

mod command;
mod script;
mod steps;
mod text;

pub use command::{Day, day_asked};
pub use script::DayScript;
pub use steps::{File, Side, Step, dumps};
pub use text::LineText;
