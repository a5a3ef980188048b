// Examples of the built-in table, as tests.
#![tactic(auto)]

#[cfg(test)]
mod answers;
#[cfg(test)]
mod tests;
