//! Scripts solved and judged for people: a line for each check, errors in words, refutations explained.
#![tactic(auto)]

mod arguments;
mod inputs;
mod judging;
mod reporting;
mod solving;
mod statuses;

pub use arguments::{Notice, Request, RequestStop, read_request};
pub use inputs::{InputStop, MOST_OF_CERT, MOST_OF_SCRIPT, may_overwrite, read_whole};
pub use reporting::{Report, Task, complaint, report_certificate, report_script};
pub use statuses::{ReportStatus, status_table};
