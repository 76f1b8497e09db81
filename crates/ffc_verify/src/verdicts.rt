//! Verdicts on certificates.

/// How many entries of each kind were accepted, and the lines of their cores.
#[derive(Drop)]
pub(crate) struct Tally {
    pub(crate) sat: u64,
    pub(crate) unsat: u64,
    pub(crate) unknown: u64,
    pub(crate) cores: Vec<u8>,
}

/// Why an entry is refused: a code of its form, or a rule.
#[derive(Clone, Copy, PartialEq, Eq)]
pub(crate) enum Cause {
    Format(u8),
    Rule(u8),
}

/// The entry that is refused, the line of the certificate, and why.
#[derive(Clone, Copy, PartialEq, Eq)]
pub(crate) struct Refusal {
    pub(crate) entry: u64,
    pub(crate) line: u64,
    pub(crate) cause: Cause,
}

#[derive(Drop)]
pub(crate) enum Verdict {
    Accepted(Tally),
    Refused(Refusal),
}
