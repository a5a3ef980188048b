// The built-in key table: what the bytes of a terminal's keys mean, by nine rules, and its filling into a map.
#![tactic(auto)]

mod fill;
mod forms;
mod place;
mod rows;
mod rule;

pub use fill::fill_table;
pub use place::{RULES, count, entry_at};
pub use rule::{LONGEST, Rule, TableKey};
