//! Where the reading of a text is.

/// How the bytes of a line go on.
#[derive(Clone, Copy, Debug)]
pub enum Mode {
    /// Nothing of the line was read.
    Fresh,
    Words,
    /// The line begins with `c`.
    Comment,
}

/// What the next word is.
#[derive(Clone, Copy, Debug)]
pub enum Stage {
    /// The word `p`.
    Problem,
    /// The word `cnf`.
    Format,
    /// The greatest variable.
    Variables,
    /// The number of clauses, after that variable.
    Clauses(u32),
    /// A literal of a clause or its end, where so many clauses have not ended.
    Body(u32),
}
