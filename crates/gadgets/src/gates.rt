//! Adders by gates: the exclusive or of a and b is a + b - 2ab, their and is ab.
use crate::bits::{BITS_A, BITS_B};
use crate::script::Part;

/// The carries c and k into the first bits.
const NO_CARRIES: Part = Part::Once(
    "(declare-const c0 F)
(assert (= c0 (as ff0 F)))
(declare-const k0 F)
(assert (= k0 (as ff0 F)))
",
);

/// An adder by the exclusive or x of two bits: the bit d of the sum, and the carry c.
const BY_HALVES: Part = Part::Each(
    "(declare-const x{i} F)
(assert (= x{i} (ff.add a{i} b{i} (ff.mul (as ff-2 F) a{i} b{i}))))
(declare-const d{i} F)
(assert (= d{i} (ff.add x{i} c{i} (ff.mul (as ff-2 F) x{i} c{i}))))
(declare-const c{i+1} F)
(assert (= c{i+1} (ff.add (ff.mul a{i} b{i}) (ff.mul c{i} x{i}))))
",
);

/// An adder by the majority of three bits, which is the carry k, with the bit e of the sum.
const BY_MAJORITY: Part = Part::Each(
    "(declare-const k{i+1} F)
(assert (= k{i+1} (ff.add (ff.mul a{i} b{i}) (ff.mul a{i} k{i}) (ff.mul b{i} k{i}) (ff.mul (as ff-2 F) a{i} b{i} k{i}))))
(declare-const e{i} F)
(assert (= e{i} (ff.add a{i} b{i} k{i} (ff.mul (as ff-2 F) k{i+1}))))
",
);

/// Two adders with the same bits, whose last carries differ.
pub const TWICE: &[Part] = &[
    BITS_A,
    BITS_B,
    NO_CARRIES,
    BY_HALVES,
    BY_MAJORITY,
    Part::Once("(assert (not (= c{n} k{n})))\n"),
];

/// The same, where the last carry of one is not the last bit of the other's sum.
pub const OPEN: &[Part] = &[
    BITS_A,
    BITS_B,
    NO_CARRIES,
    BY_HALVES,
    BY_MAJORITY,
    Part::Last("(assert (not (= c{i+1} e{i})))\n"),
];

/// The script of a family.
pub fn parts_of(name: &str) -> Option<&'static [Part]> {
    match name {
        "adder-twice" => Some(TWICE),
        "adder-twice-open" => Some(OPEN),
        _ => None,
    }
}
