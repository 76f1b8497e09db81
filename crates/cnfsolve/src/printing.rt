//! Answers in the form of SAT competitions: `s` lines with the verdict, `v` lines with literals, `c` lines with the work.
use crate::deciding::{Answer, Verdict};
use crate::faults::{Cause, Fault};
use ffc_base::SearchStop;
use ffc_cdcl::Lit;
use std::fmt;

/// How many literals a `v` line has.
const LITERALS_A_LINE: usize = 12;

/// A literal as DIMACS has it.
#[derive(Clone, Copy)]
struct Signed(Lit);

impl fmt::Display for Signed {
    fn fmt<W: fmt::Write>(&self, f: &mut fmt::Formatter<W>) -> fmt::Result {
        let variable = u64::from(self.0.node) + 1;
        if self.0.positive {
            write!(f, "{variable}")
        } else {
            write!(f, "-{variable}")
        }
    }
}

/// Writes the literals of a model, and `0` after them.
fn write_values<W: fmt::Write>(f: &mut fmt::Formatter<W>, trail: &[Lit]) -> fmt::Result {
    write!(f, "v")?;
    for (k, lit) in trail.iter().enumerate() {
        if k > 0 && k % LITERALS_A_LINE == 0 {
            write!(f, "\nv")?;
        }
        let signed = Signed(*lit);
        write!(f, " {signed}")?;
    }
    writeln!(f, " 0")
}

impl fmt::Display for Answer {
    fn fmt<W: fmt::Write>(&self, f: &mut fmt::Formatter<W>) -> fmt::Result {
        match &self.verdict {
            Verdict::Satisfiable(trail) => {
                writeln!(f, "s SATISFIABLE")?;
                write_values(f, trail.as_slice())?;
            }
            Verdict::Unsatisfiable(steps) => {
                writeln!(f, "s UNSATISFIABLE\nc steps {steps}")?;
            }
            Verdict::Unknown(SearchStop::Spent) => {
                writeln!(f, "s UNKNOWN\nc the budget is spent")?;
            }
            Verdict::Unknown(SearchStop::Memory) => {
                writeln!(f, "s UNKNOWN\nc out of memory")?;
            }
            Verdict::Unknown(SearchStop::GaveUp) => {
                writeln!(f, "s UNKNOWN\nc the search gave up")?;
            }
        }
        let conflicts = self.conflicts;
        let assignments = self.assignments;
        write!(f, "c conflicts {conflicts} propagations {assignments}")
    }
}

impl fmt::Display for Fault {
    fn fmt<W: fmt::Write>(&self, f: &mut fmt::Formatter<W>) -> fmt::Result {
        let line = self.line;
        let wanted = match self.cause {
            Cause::Head => "`p cnf`, the greatest variable and the number of clauses",
            Cause::Item => "a literal, or `0` at the end of a clause",
            Cause::Range => "a clause without a variable past the greatest one",
            Cause::End => "more clauses",
        };
        write!(f, "line {line}: expected {wanted}")
    }
}
