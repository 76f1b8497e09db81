//! What is known of numbers by their type.
ghost use Rattle.ffc_cert.specs.Ranges.{IsNarrow};

/// A number has 32 bits. It does nothing when it runs.
pub(crate) fn is_narrow(number: u32)
    ensures { IsNarrow number }
{}
