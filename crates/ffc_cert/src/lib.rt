//! The text of certificates: what `ffsolve` writes of each check's answer, and `ffcheck` reads.
//!
//! A certificate is line 1, which names its version, and then one entry for each check. What text an entry has is said in
//! `specs/Spelling.antt`, and what a text's entries and its first fault are in `specs/Reading.antt`, over the whole text.
#![tactic(auto)]

mod entries;
mod flaws;
mod forms;
mod items;
pub mod laws;
mod progress;
mod readable;
mod reading;
mod scanning;
mod sequences;
mod spelled;
mod writing;

pub use entries::{
    Cause, CertFault, CertLine, CertStop, Entry, Literal, Multiple, Numbered, Power, Term,
};
pub use reading::CertReader;
pub use sequences::Sequence;
pub use writing::{text_len, write_entry};

/// How many bytes the text of an entry may have.
pub const MAX_BYTES: u64 = 67_108_864;
