//! Comparing two numbers by the last bit of their difference, to which 2^n is added.
use crate::bits::{BITS_A, BITS_B, NO_OTHER_SUM, NO_SUM, OTHER_SUM_OF_B, SUM_OF_A};
use crate::script::Part;

/// Bits d, one more than a number has.
const BITS_D: Part = Part::OneMore(
    "(declare-const d{i} F)
(assert (= (ff.mul d{i} d{i}) d{i}))
",
);

/// The sum u of no bits.
const NO_SUM_OF_D: Part = Part::Once(
    "(declare-const u0 F)
(assert (= u0 (as ff0 F)))
",
);

/// The sum u of one more of the bits d.
const SUM_OF_D: Part = Part::OneMore(
    "(declare-const u{i+1} F)
(assert (= u{i+1} (ff.add u{i} (ff.mul (as ff{2^i} F) d{i}))))
",
);

/// The bits d are those of a + 2^n - b, and the last of them is 0: a is below b.
const A_BELOW_B: Part = Part::Once(
    "(assert (= (ff.add u{n+1} t{n}) (ff.add s{n} (as ff{2^n} F))))
(assert (= d{n} (as ff0 F)))
",
);

/// Bits e, one more than a number has.
const BITS_E: Part = Part::OneMore(
    "(declare-const e{i} F)
(assert (= (ff.mul e{i} e{i}) e{i}))
",
);

/// The sum v of no bits.
const NO_SUM_OF_E: Part = Part::Once(
    "(declare-const v0 F)
(assert (= v0 (as ff0 F)))
",
);

/// The sum v of one more of the bits e.
const SUM_OF_E: Part = Part::OneMore(
    "(declare-const v{i+1} F)
(assert (= v{i+1} (ff.add v{i} (ff.mul (as ff{2^i} F) e{i}))))
",
);

/// The bits e are those of b + 2^n - a, and the last of them is 0: b is below a.
const B_BELOW_A: Part = Part::Once(
    "(assert (= (ff.add v{n+1} s{n}) (ff.add t{n} (as ff{2^n} F))))
(assert (= e{n} (as ff0 F)))
",
);

/// Two numbers of n bits, each below the other. The order is above 2^(n+1).
pub const EACH_WAY: &[Part] = &[
    BITS_A,
    BITS_B,
    NO_SUM,
    SUM_OF_A,
    NO_OTHER_SUM,
    OTHER_SUM_OF_B,
    BITS_D,
    NO_SUM_OF_D,
    SUM_OF_D,
    A_BELOW_B,
    BITS_E,
    NO_SUM_OF_E,
    SUM_OF_E,
    B_BELOW_A,
];

/// Two numbers of n bits, at least one, the first below the second.
pub const OPEN: &[Part] = &[
    BITS_A,
    BITS_B,
    NO_SUM,
    SUM_OF_A,
    NO_OTHER_SUM,
    OTHER_SUM_OF_B,
    BITS_D,
    NO_SUM_OF_D,
    SUM_OF_D,
    A_BELOW_B,
];

/// The script of a family.
pub fn parts_of(name: &str) -> Option<&'static [Part]> {
    match name {
        "compare" => Some(EACH_WAY),
        "compare-open" => Some(OPEN),
        _ => None,
    }
}
