// A sink that writes each event as a line.
#![tactic(auto)]

mod line;
mod number;
mod output;
mod write;

pub use line::{LONGEST, Line, key_line, number_of, report_line};
pub use number::Number;
pub use output::{CAPACITY, LineWriter};
