//! How far a basis was completed.
use crate::pair::Pairs;
use ffc_line::LineId;

/// What a completed basis is.
#[derive(Debug, Drop)]
pub enum Completion {
    /// This line is a constant other than 0, so that every polynomial is in the ideal.
    Constant(LineId),
    /// Every S-polynomial reduces to zero: the lines are a Gröbner basis.
    Closed,
    /// So does every S-polynomial but those of these pairs, where a limit was passed.
    SetAside(Pairs),
}

/// How far a basis was completed.
#[derive(Debug, Drop)]
pub enum Progress {
    Done(Completion),
    /// Pairs are left, to go on with.
    Left,
}
