// Examples of encode, as tests. Their bytes are written by hand from the published pages: XTerm Control Sequences, the
// fixterms page for CSI u, and the Unicode Standard for UTF-8.
#![tactic(auto)]

#[cfg(test)]
mod examples;
#[cfg(test)]
mod tests;
