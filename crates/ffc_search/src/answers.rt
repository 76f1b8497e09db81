//! What a search answers.
use ffc_cert::CertLine;
use ffc_field::Field;
use ffc_roots::Elements;

/// What a search answers.
#[derive(Debug, Drop)]
pub enum Found<F: Field> {
    /// A value for each variable that was asked for, in order: together a common zero of the generators.
    Values(Elements<F>),
    /// A case tree from the generators, which closes, and for each line of bits in it the variables that its last numbers are
    /// for.
    Closed(Vec<CertLine>, Vec<Vec<u32>>),
}
