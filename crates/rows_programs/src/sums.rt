//! Certificates without the parts of a count, since how a search divides its work is not wanted, but how much it takes.
use std::alloc::{AllocError, Global};

/// The sum of the counts of an entry that ran out of steps.
fn sum_of(line: &str) -> Option<u64> {
    let counts = line.strip_prefix("unknown steps ")?;
    let mut sum = 0u64;
    for count in counts.split(' ') {
        sum = sum.checked_add(count.parse::<u64>().ok()?)?;
    }
    Some(sum)
}

/// The certificate with the counts of each such entry added up.
pub(crate) fn summed(alloc: Global, cert: &[u8]) -> Result<Vec<u8>, AllocError> {
    let mut out = String::new(alloc);
    for line in str::from_utf8(cert).unwrap_or("").lines() {
        match sum_of(line) {
            Some(sum) => write!(out, "unknown steps, {sum} in all\n")?,
            None => write!(out, "{line}\n")?,
        }
    }
    Ok(out.into_bytes())
}
