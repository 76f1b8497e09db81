//! The rules of certificates, by the numbers that answers give them: the table of docs/FORMATS.md.

/// Listed values are those of the declared constants, and with them all that is active is true.
pub const VALUES: u8 = 1;

/// An assumed clause names an entry of the active list.
pub const ASSUME: u8 = 2;

/// A node has the clause that is taken of it.
pub const NODE_RULE: u8 = 3;

/// A clause follows by its hints.
pub const HINTS: u8 = 4;

/// The coefficients of a sum of multiples are residues.
pub const COMBINATION: u8 = 5;

/// A chain is over a line in its variable alone, has the steps of its order, and each step is an identity of residues.
pub const CHAIN: u8 = 6;

/// Cases are the roots of a line, or all values of a variable.
pub const SPLIT: u8 = 7;

/// A branch ends with a constant other than 0.
pub const NOT_CLOSED: u8 = 8;

/// The last clause is the empty one.
pub const NOT_EMPTY: u8 = 9;

/// Every assignment makes something active false.
pub const ENUMERATION: u8 = 10;

/// Sizes are within the limits.
pub const LIMIT: u8 = 11;

/// What is referred to is there.
pub const REFERENCE: u8 = 12;

/// A polynomial in chosen variables is 0 at each choice of bits for them that a sum of bits does not exclude.
pub const BITS: u8 = 13;
