//! All roots in the field of a polynomial in one variable, with the identity that proves that there are no others.
#![tactic(auto)]

mod bezout;
mod elements;
mod finding;
mod found;
mod ordered;
mod sparse;
mod split;

pub use elements::Elements;
pub use finding::roots;
pub use found::Roots;
pub use sparse::{from_univariate, to_univariate};
