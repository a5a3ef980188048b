// Examples of characters, lossy text, the read buffer and the marker search, as tests, worked out by hand.
#![tactic(auto)]

#[cfg(test)]
mod answers;
#[cfg(test)]
mod buffers;
#[cfg(test)]
mod characters;
#[cfg(test)]
mod texts;
