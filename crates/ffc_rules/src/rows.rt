//! Scripts and certificates that the definitions are tried on. Each function has an empty body: what its contract says was
//! computed.
ghost use Rattle.ffc_rules.specs.Rows.{AreChecks, AreProducts, AreScripts, AreChains, AreClauses, AreSplits, AreWhole};
ghost use Rattle.ffc_rules.specs.Rows.{AreFirst, AreBits, AreLimits, AreSchemes, AreCores, AreCauses};

/// What scripts check.
pub fn checks()
    ensures { AreChecks }
{}

/// A product with zero, and its certificate altered.
pub fn products()
    ensures { AreProducts }
{}

/// Whole judgements, from the bytes of a script.
pub fn scripts()
    ensures { AreScripts }
{}

/// A chain, in both versions.
pub fn chains()
    ensures { AreChains }
{}

/// A refutation by clauses alone, altered.
pub fn clauses()
    ensures { AreClauses }
{}

/// Splits on one line again and again.
pub fn splits()
    ensures { AreSplits }
{}

/// Values, cases, and entries that claim nothing.
pub fn whole_entries()
    ensures { AreWhole }
{}

/// Which fault comes first.
pub fn first_faults()
    ensures { AreFirst }
{}

/// A certificate of version 3, where it is read and where it is not.
pub fn bits()
    ensures { AreBits }
{}

/// Limits at the last good value and the first bad one.
pub fn limits()
    ensures { AreLimits }
{}

/// The clauses of schemes.
pub fn schemes()
    ensures { AreSchemes }
{}

/// What refutations use.
pub fn cores()
    ensures { AreCores }
{}

/// When a check may be left undecided.
pub fn causes()
    ensures { AreCauses }
{}
