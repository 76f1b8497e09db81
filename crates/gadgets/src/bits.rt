//! Bits: sums, selections, exclusive ors and an adder. A sum adds the powers of 2 of the places of bits, step by step.
use crate::script::Part;

/// Bits a.
pub const BITS_A: Part = Part::Each(
    "(declare-const a{i} F)
(assert (= (ff.mul a{i} a{i}) a{i}))
",
);

/// Bits b.
pub const BITS_B: Part = Part::Each(
    "(declare-const b{i} F)
(assert (= (ff.mul b{i} b{i}) b{i}))
",
);

/// The sum s of no bits.
pub const NO_SUM: Part = Part::Once(
    "(declare-const s0 F)
(assert (= s0 (as ff0 F)))
",
);

/// The sum s of one more of the bits b.
const SUM_OF_B: Part = Part::Each(
    "(declare-const s{i+1} F)
(assert (= s{i+1} (ff.add s{i} (ff.mul (as ff{2^i} F) b{i}))))
",
);

/// The sum s of one more of the bits a.
pub const SUM_OF_A: Part = Part::Each(
    "(declare-const s{i+1} F)
(assert (= s{i+1} (ff.add s{i} (ff.mul (as ff{2^i} F) a{i}))))
",
);

/// The sum t of no bits.
pub const NO_OTHER_SUM: Part = Part::Once(
    "(declare-const t0 F)
(assert (= t0 (as ff0 F)))
",
);

/// The sum t of one more of the bits b.
pub const OTHER_SUM_OF_B: Part = Part::Each(
    "(declare-const t{i+1} F)
(assert (= t{i+1} (ff.add t{i} (ff.mul (as ff{2^i} F) b{i}))))
",
);

/// Bits whose sum is the power of 2 after their greatest sum.
pub const RANGE: &[Part] = &[
    BITS_B,
    NO_SUM,
    SUM_OF_B,
    Part::Once("(assert (= s{n} (as ff{2^n} F)))\n"),
];

/// Bits whose sum is their greatest.
pub const OPEN: &[Part] = &[
    BITS_B,
    NO_SUM,
    SUM_OF_B,
    Part::Once("(assert (= s{n} (as ff{2^n-1} F)))\n"),
];

/// Two lists of bits with one sum whose first bits differ.
pub const UNIQUE: &[Part] = &[
    BITS_A,
    BITS_B,
    NO_SUM,
    SUM_OF_A,
    NO_OTHER_SUM,
    OTHER_SUM_OF_B,
    Part::Once(
        "(assert (= s{n} t{n}))
(assert (not (= a0 b0)))
",
    ),
];

/// Selections by bits in a chain, whose answer is none of the inputs.
pub const SELECT: &[Part] = &[
    Part::Once("(declare-const y0 F)\n"),
    Part::Each(
        "(declare-const b{i} F)
(assert (= (ff.mul b{i} b{i}) b{i}))
(declare-const x{i} F)
(declare-const y{i+1} F)
(assert (= y{i+1} (ff.add y{i} (ff.mul b{i} (ff.add x{i} (ff.neg y{i}))))))
",
    ),
    Part::Once("(assert (not (= y{n} y0)))\n"),
    Part::Each("(assert (not (= y{n} x{i})))\n"),
];

/// Exclusive ors of bits in a chain, whose answer is no bit.
pub const XOR: &[Part] = &[
    Part::Once(
        "(declare-const y0 F)
(assert (= (ff.mul y0 y0) y0))
",
    ),
    Part::Each(
        "(declare-const b{i} F)
(assert (= (ff.mul b{i} b{i}) b{i}))
(declare-const y{i+1} F)
(assert (= y{i+1} (ff.add y{i} b{i} (ff.mul (as ff-2 F) y{i} b{i}))))
",
    ),
    Part::Once(
        "(assert (not (= y{n} (as ff0 F))))
(assert (not (= y{n} (as ff1 F))))
",
    ),
];

/// An adder with carries from bit to bit, which does not agree with the sum of the numbers.
pub const ADDER: &[Part] = &[
    BITS_A,
    BITS_B,
    Part::Each(
        "(declare-const d{i} F)
(assert (= (ff.mul d{i} d{i}) d{i}))
",
    ),
    Part::Once(
        "(declare-const c0 F)
(assert (= c0 (as ff0 F)))
",
    ),
    Part::Each(
        "(declare-const c{i+1} F)
(assert (= (ff.mul c{i+1} c{i+1}) c{i+1}))
(assert (= (ff.add d{i} (ff.mul (as ff2 F) c{i+1})) (ff.add a{i} b{i} c{i})))
",
    ),
    NO_SUM,
    SUM_OF_A,
    NO_OTHER_SUM,
    OTHER_SUM_OF_B,
    Part::Once(
        "(declare-const u0 F)
(assert (= u0 (as ff0 F)))
",
    ),
    Part::Each(
        "(declare-const u{i+1} F)
(assert (= u{i+1} (ff.add u{i} (ff.mul (as ff{2^i} F) d{i}))))
",
    ),
    Part::Once(
        "(assert (not (= (ff.add s{n} t{n}) (ff.add u{n} (ff.mul (as ff{2^n} F) c{n})))))\n",
    ),
];

/// The script of a family.
pub fn parts_of(name: &str) -> Option<&'static [Part]> {
    match name {
        "range" => Some(RANGE),
        "range-open" => Some(OPEN),
        "unique" => Some(UNIQUE),
        "select" => Some(SELECT),
        "xor" => Some(XOR),
        "adder" => Some(ADDER),
        _ => None,
    }
}
