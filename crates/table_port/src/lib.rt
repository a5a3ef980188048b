// A static library for the comparison with the original alone: builds the table on so many nodes and tells what is stored
// of it. The contracts are light: it is proved to be safe and to end; what it answers, the comparison sees.
#![tactic(auto)]

mod interface;
mod tell;

pub use interface::{cilvedroz_table, cilvedroz_table_key};
