//! Tests for zero, inverses and square roots. In a test for zero the answer is 1 where x is 0, else 0, with a hint v for the
//! inverse of x.
use crate::script::Part;

/// Tests for zero in a chain, and an answer that is no bit.
pub const BIT: &[Part] = &[
    Part::Once("(declare-const x0 F)\n"),
    Part::Each(
        "(declare-const v{i} F)
(declare-const x{i+1} F)
(assert (= (ff.mul x{i} v{i}) (ff.add (as ff1 F) (ff.neg x{i+1}))))
(assert (= (ff.mul x{i} x{i+1}) (as ff0 F)))
",
    ),
    Part::Once(
        "(assert (not (= x{n} (as ff0 F))))
(assert (not (= x{n} (as ff1 F))))
",
    ),
];

/// The same, where the last test lacks the equation that binds its answer.
pub const OPEN: &[Part] = &[
    Part::Once("(declare-const x0 F)\n"),
    Part::AllButLast(
        "(declare-const v{i} F)
(declare-const x{i+1} F)
(assert (= (ff.mul x{i} v{i}) (ff.add (as ff1 F) (ff.neg x{i+1}))))
(assert (= (ff.mul x{i} x{i+1}) (as ff0 F)))
",
    ),
    Part::Last(
        "(declare-const v{i} F)
(declare-const x{i+1} F)
(assert (= (ff.mul x{i} v{i}) (ff.add (as ff1 F) (ff.neg x{i+1}))))
",
    ),
    Part::Once(
        "(assert (not (= x{n} (as ff0 F))))
(assert (not (= x{n} (as ff1 F))))
",
    ),
];

/// Two chains with one input whose answers differ.
pub const TWICE: &[Part] = &[
    Part::Once(
        "(declare-const x0 F)
(declare-const y0 F)
(assert (= x0 y0))
",
    ),
    Part::Each(
        "(declare-const v{i} F)
(declare-const x{i+1} F)
(assert (= (ff.mul x{i} v{i}) (ff.add (as ff1 F) (ff.neg x{i+1}))))
(assert (= (ff.mul x{i} x{i+1}) (as ff0 F)))
(declare-const w{i} F)
(declare-const y{i+1} F)
(assert (= (ff.mul y{i} w{i}) (ff.add (as ff1 F) (ff.neg y{i+1}))))
(assert (= (ff.mul y{i} y{i+1}) (as ff0 F)))
",
    ),
    Part::Once("(assert (not (= x{n} y{n})))\n"),
];

/// Numbers with two different inverses, of which one number has to have them.
pub const INVERSE: &[Part] = &[
    Part::Each(
        "(declare-const x{i} F)
(declare-const y{i} F)
(declare-const z{i} F)
(assert (= (ff.mul x{i} y{i}) (as ff1 F)))
(assert (= (ff.mul x{i} z{i}) (as ff1 F)))
",
    ),
    Part::Once("(assert (or false"),
    Part::Each(" (not (= y{i} z{i}))"),
    Part::Once("))\n"),
];

/// Numbers with one square that are neither equal nor each other's negation.
pub const SQUARE: &[Part] = &[
    Part::Each(
        "(declare-const x{i} F)
(declare-const y{i} F)
(assert (= (ff.mul x{i} x{i}) (ff.mul y{i} y{i})))
",
    ),
    Part::Once("(assert (or false"),
    Part::Each(" (and (not (= x{i} y{i})) (not (= x{i} (ff.neg y{i}))))"),
    Part::Once("))\n"),
];

/// The script of a family.
pub fn parts_of(name: &str) -> Option<&'static [Part]> {
    match name {
        "zero" => Some(BIT),
        "zero-open" => Some(OPEN),
        "zero-twice" => Some(TWICE),
        "inverse" => Some(INVERSE),
        "square" => Some(SQUARE),
        _ => None,
    }
}
