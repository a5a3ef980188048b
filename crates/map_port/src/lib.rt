// A static library for the comparison with the original and for the benchmark alone: works through a script of inserts
// and lookups on one map. The contracts are light: it is proved to be safe and to end; what it answers, the comparison
// sees.
#![tactic(auto)]

mod answer;
mod interface;
mod record;
mod script;
mod work;

pub use interface::cilvedroz_map;
