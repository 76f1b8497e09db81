//! Trees and tables that the definitions are tried on. Each function has an empty body: what its contract says was
//! computed from them.
ghost use Rattle.ffc_trees.specs.Rows.{AreWorked, ArePolynomials, AreRules, AreLimits};
ghost use Rattle.ffc_trees.specs.BitRows.{AreChoices, AreParts, AreLimited};

/// Whole trees, and the same with one change.
pub fn worked_trees()
    ensures { AreWorked }
{}

/// Polynomials of nodes, and first lines.
pub fn polynomials()
    ensures { ArePolynomials }
{}

/// Each rule where it is kept and where it is broken.
pub fn rules()
    ensures { AreRules }
{}

/// Each limit where it is reached and where it is passed.
pub fn limits()
    ensures { AreLimits }
{}

/// Lines of bits: what is impossible, each part of the rule, and each limit.
pub fn bits()
    ensures choices { AreChoices }
    ensures parts { AreParts }
    ensures limits { AreLimited }
{}
