// Examples of a map, as tests, worked out by hand.
#![tactic(auto)]

#[cfg(test)]
mod tests;
