// Examples of events, recognisers and sinks, as tests, worked out by hand, and a sink over any other.
#![tactic(auto)]

#[cfg(test)]
mod answers;
#[cfg(test)]
mod tests;
mod without_reports;

pub use without_reports::WithoutReports;
