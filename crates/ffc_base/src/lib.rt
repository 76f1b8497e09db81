//! The outside of the programs: sources and sinks of bytes that count their faults, how a program ends, the meter of a
//! search's work with why it stops, and text that clauses alone read.
#![tactic(auto)]

mod ending;
mod faults;
mod files;
mod memory;
mod meter;
mod outside;
mod pieces;
mod standard;
mod stop;
mod sure;
mod text;

pub use ending::end_with;
pub use files::{FileSink, FileSource};
pub use memory::{MemSink, MemSource};
pub use meter::{Meter, Spent, Unit};
pub use outside::{Failed, NamedSink, NamedSource, Sink, Source, WriteStop};
pub use standard::{StdSink, StdSource};
pub use stop::{SearchStop, Stop};
pub use sure::{SureSink, SureSource};
pub use text::GhostText;
