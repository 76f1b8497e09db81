//! The faults of an object of the system.
ghost use Rattle.std.specs.Prelude.{◌≡◌, ℕ, ◌≤◌};
ghost use Rattle.ffc_base.specs.Counts.{counted};

use std::io;
use std::marker::Model;

/// How many calls failed, and why the last one did. To a contract it is the count.
#[derive(Drop)]
pub(crate) struct Faults {
    count: u64,
    last: Option<io::Error>,
}

impl Model for Faults {
    ghost Value = { ℕ };

    ghost view = { λ s. s.count };

    ghost invariant = { λ s. s.count ≤ 18446744073709551615 };
}

impl Faults {
    /// No call has failed.
    pub(crate) fn none() -> Self
        ensures { result ≡ 0 }
    {
        Faults {
            count: 0,
            last: None,
        }
    }

    /// Counts a call that failed so.
    pub(crate) fn add(&mut self, error: io::Error)
        ensures in_range { self.old ≤ 18446744073709551615 }
        ensures counted { self.new ≡ counted self.old }
    {
        self.count = self.count.saturating_add(1);
        self.last = Some(error);
    }

    /// How many calls failed.
    pub(crate) fn count(&self) -> u64
        ensures { result ≡ self.now }
    {
        self.count
    }

    /// Why the last call failed that did.
    pub(crate) fn last(&self) -> Option<&io::Error> {
        self.last.as_ref()
    }
}
