//! Lines of a certificate that give a clause without a tree.
ghost use Rattle.std.specs.Prelude.{◌≡◌};
ghost use Rattle.ffc_cert.specs.Ranges.{IsLine};
ghost use Rattle.ffc_refutation.specs.Forcing.{line_of};

use ffc_cert::CertLine;

/// Why a literal is true: the assertion of a number, or the clause of a node's scheme, with the node, the scheme and the index.
#[derive(Clone, Copy, Debug, PartialEq, Eq)]
pub enum Reason {
    Assertion(u32),
    Scheme(u32, u32, u32),
}

impl Reason {
    /// The line that gives the clause.
    pub(crate) fn line(self) -> CertLine
        ensures line { result ≡ line_of self }
        ensures range { IsLine (line_of self) }
    {
        match self {
            Reason::Assertion(number) => CertLine::Assume(number),
            Reason::Scheme(node, scheme, index) => CertLine::Scheme(node, scheme, index),
        }
    }
}
