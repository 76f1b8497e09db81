//! Words in parts: two limbs of n bits, which are added with carries, and four bytes of n bits.
use crate::bits::{NO_OTHER_SUM, NO_SUM, OTHER_SUM_OF_B, SUM_OF_A};
use crate::script::Part;

/// Bits of two words, of their sum by limbs, and of their sum.
const BITS_OF_LIMBS: Part = Part::Twice(
    "(declare-const a{i} F)
(assert (= (ff.mul a{i} a{i}) a{i}))
(declare-const b{i} F)
(assert (= (ff.mul b{i} b{i}) b{i}))
(declare-const d{i} F)
(assert (= (ff.mul d{i} d{i}) d{i}))
(declare-const e{i} F)
(assert (= (ff.mul e{i} e{i}) e{i}))
",
);

/// The carries of the low limbs, the high limbs and the words.
const CARRIES: Part = Part::Once(
    "(declare-const c F)
(assert (= (ff.mul c c) c))
(declare-const h F)
(assert (= (ff.mul h h) h))
(declare-const k F)
(assert (= (ff.mul k k) k))
",
);

/// The high limbs x of the bits a and y of the bits b.
const NO_HIGH_LIMBS: Part = Part::Once(
    "(declare-const x0 F)
(assert (= x0 (as ff0 F)))
(declare-const y0 F)
(assert (= y0 (as ff0 F)))
",
);

/// The high limbs of one more bit.
const HIGH_LIMBS: Part = Part::Each(
    "(declare-const x{i+1} F)
(assert (= x{i+1} (ff.add x{i} (ff.mul (as ff{2^i} F) a{n+i}))))
(declare-const y{i+1} F)
(assert (= y{i+1} (ff.add y{i} (ff.mul (as ff{2^i} F) b{n+i}))))
",
);

/// The limbs u and v of the bits d, and the word w of the bits e.
const NO_SUMS: Part = Part::Once(
    "(declare-const u0 F)
(assert (= u0 (as ff0 F)))
(declare-const v0 F)
(assert (= v0 (as ff0 F)))
(declare-const w0 F)
(assert (= w0 (as ff0 F)))
",
);

/// The limbs of one more bit.
const LIMBS_OF_D: Part = Part::Each(
    "(declare-const u{i+1} F)
(assert (= u{i+1} (ff.add u{i} (ff.mul (as ff{2^i} F) d{i}))))
(declare-const v{i+1} F)
(assert (= v{i+1} (ff.add v{i} (ff.mul (as ff{2^i} F) d{n+i}))))
",
);

/// The word of one more bit.
const WORD_OF_E: Part = Part::Twice(
    "(declare-const w{i+1} F)
(assert (= w{i+1} (ff.add w{i} (ff.mul (as ff{2^i} F) e{i}))))
",
);

/// The low limbs add up, the high limbs with the carry, and the words.
const SUMS: Part = Part::Once(
    "(assert (= (ff.add u{n} (ff.mul (as ff{2^n} F) c)) (ff.add s{n} t{n})))
(assert (= (ff.add v{n} (ff.mul (as ff{2^n} F) h)) (ff.add x{n} y{n} c)))
(assert (= (ff.add w{2n} (ff.mul (as ff{2^(2n)} F) k)) (ff.add s{n} t{n} (ff.mul (as ff{2^n} F) (ff.add x{n} y{n})))))
",
);

/// Two words, whose last carry by limbs is not that of their sum. The order is above 2^(2n+1).
pub const LIMBS: &[Part] = &[
    BITS_OF_LIMBS,
    CARRIES,
    NO_SUM,
    SUM_OF_A,
    NO_OTHER_SUM,
    OTHER_SUM_OF_B,
    NO_HIGH_LIMBS,
    HIGH_LIMBS,
    NO_SUMS,
    LIMBS_OF_D,
    WORD_OF_E,
    SUMS,
    Part::Once("(assert (not (= h k)))\n"),
];

/// Two words of at least two bits, whose last carry is not that of their low limbs.
pub const LIMBS_OPEN: &[Part] = &[
    BITS_OF_LIMBS,
    CARRIES,
    NO_SUM,
    SUM_OF_A,
    NO_OTHER_SUM,
    OTHER_SUM_OF_B,
    NO_HIGH_LIMBS,
    HIGH_LIMBS,
    NO_SUMS,
    LIMBS_OF_D,
    WORD_OF_E,
    SUMS,
    Part::Once("(assert (not (= c h)))\n"),
];

/// Bits of a word and of four bytes.
const BITS_OF_BYTES: Part = Part::FourTimes(
    "(declare-const a{i} F)
(assert (= (ff.mul a{i} a{i}) a{i}))
(declare-const b{i} F)
(assert (= (ff.mul b{i} b{i}) b{i}))
",
);

/// The word of one more bit.
const WORD_OF_A: Part = Part::FourTimes(
    "(declare-const s{i+1} F)
(assert (= s{i+1} (ff.add s{i} (ff.mul (as ff{2^i} F) a{i}))))
",
);

/// The bytes t, u, v and w of no bits.
const NO_BYTES: Part = Part::Once(
    "(declare-const t0 F)
(assert (= t0 (as ff0 F)))
(declare-const u0 F)
(assert (= u0 (as ff0 F)))
(declare-const v0 F)
(assert (= v0 (as ff0 F)))
(declare-const w0 F)
(assert (= w0 (as ff0 F)))
",
);

/// The bytes of one more bit.
const BYTES_OF_B: Part = Part::Each(
    "(declare-const t{i+1} F)
(assert (= t{i+1} (ff.add t{i} (ff.mul (as ff{2^i} F) b{i}))))
(declare-const u{i+1} F)
(assert (= u{i+1} (ff.add u{i} (ff.mul (as ff{2^i} F) b{n+i}))))
(declare-const v{i+1} F)
(assert (= v{i+1} (ff.add v{i} (ff.mul (as ff{2^i} F) b{2n+i}))))
(declare-const w{i+1} F)
(assert (= w{i+1} (ff.add w{i} (ff.mul (as ff{2^i} F) b{3n+i}))))
",
);

/// The bytes are those of the word.
const WORD_OF_BYTES: Part = Part::Once(
    "(assert (= s{4n} (ff.add t{n} (ff.mul (as ff{2^n} F) u{n}) (ff.mul (as ff{2^(2n)} F) v{n}) (ff.mul (as ff{2^(3n)} F) w{n}))))
",
);

/// A word and its bytes, whose last bits differ. The order is above 2^(4n).
pub const BYTES: &[Part] = &[
    BITS_OF_BYTES,
    NO_SUM,
    WORD_OF_A,
    NO_BYTES,
    BYTES_OF_B,
    WORD_OF_BYTES,
    Part::Last("(assert (not (= a{3n+i} b{3n+i})))\n"),
];

/// A word and its bytes, where the word's first bit is not the bytes' last.
pub const BYTES_OPEN: &[Part] = &[
    BITS_OF_BYTES,
    NO_SUM,
    WORD_OF_A,
    NO_BYTES,
    BYTES_OF_B,
    WORD_OF_BYTES,
    Part::Last("(assert (not (= a0 b{3n+i})))\n"),
];

/// The script of a family.
pub fn parts_of(name: &str) -> Option<&'static [Part]> {
    match name {
        "limbs" => Some(LIMBS),
        "limbs-open" => Some(LIMBS_OPEN),
        "bytes" => Some(BYTES),
        "bytes-open" => Some(BYTES_OPEN),
        _ => None,
    }
}
