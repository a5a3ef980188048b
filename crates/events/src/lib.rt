// What a decoder tells and to whom: events, recognisers of reports, sinks, and a queue of events.
#![tactic(auto)]

mod event;
mod make;
mod queue;
mod read;
mod recogniser;
mod sink;
mod store;
mod stored;
mod texts;

pub use event::{InputEvent, Report, Seen};
pub use make::{key_event, paste_event, report_event};
pub use queue::Queue;
pub use recogniser::{Focus, NoReports, Recogniser};
pub use sink::Sink;
