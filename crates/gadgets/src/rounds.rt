//! Rounds of permutations of exponent 7, with small numbers that differ as their constants.
use crate::script::Part;

/// One round on two states of width 3: each lane with a constant to the 7th power, then a mix of the lanes.
const ROUND: Part = Part::Each(
    "(declare-const s{3i} F)
(assert (= s{3i} (let ((u (ff.add x{3i} (as ff{3i+1} F)))) (ff.mul u u u u u u u))))
(declare-const s{3i+1} F)
(assert (= s{3i+1} (let ((u (ff.add x{3i+1} (as ff{3i+2} F)))) (ff.mul u u u u u u u))))
(declare-const s{3i+2} F)
(assert (= s{3i+2} (let ((u (ff.add x{3i+2} (as ff{3i+3} F)))) (ff.mul u u u u u u u))))
(declare-const x{3i+3} F)
(assert (= x{3i+3} (ff.add s{3i} s{3i+1} s{3i+2} s{3i})))
(declare-const x{3i+4} F)
(assert (= x{3i+4} (ff.add s{3i} s{3i+1} s{3i+2} s{3i+1})))
(declare-const x{3i+5} F)
(assert (= x{3i+5} (ff.add s{3i} s{3i+1} s{3i+2} s{3i+2})))
(declare-const t{3i} F)
(assert (= t{3i} (let ((u (ff.add y{3i} (as ff{3i+1} F)))) (ff.mul u u u u u u u))))
(declare-const t{3i+1} F)
(assert (= t{3i+1} (let ((u (ff.add y{3i+1} (as ff{3i+2} F)))) (ff.mul u u u u u u u))))
(declare-const t{3i+2} F)
(assert (= t{3i+2} (let ((u (ff.add y{3i+2} (as ff{3i+3} F)))) (ff.mul u u u u u u u))))
(declare-const y{3i+3} F)
(assert (= y{3i+3} (ff.add t{3i} t{3i+1} t{3i+2} t{3i})))
(declare-const y{3i+4} F)
(assert (= y{3i+4} (ff.add t{3i} t{3i+1} t{3i+2} t{3i+1})))
(declare-const y{3i+5} F)
(assert (= y{3i+5} (ff.add t{3i} t{3i+1} t{3i+2} t{3i+2})))
",
);

/// The first outputs differ.
const OUTPUTS: Part = Part::Once("(assert (not (= x{3n} y{3n})))\n");

/// Two copies of a permutation of width 3 with equal inputs whose first outputs differ.
pub const PERMUTATION: &[Part] = &[
    Part::Once(
        "(declare-const x0 F)
(declare-const y0 F)
(assert (= x0 y0))
(declare-const x1 F)
(declare-const y1 F)
(assert (= x1 y1))
(declare-const x2 F)
(declare-const y2 F)
(assert (= x2 y2))
",
    ),
    ROUND,
    OUTPUTS,
];

/// The same, where the first inputs may differ.
pub const OPEN: &[Part] = &[
    Part::Once(
        "(declare-const x0 F)
(declare-const y0 F)
(declare-const x1 F)
(declare-const y1 F)
(assert (= x1 y1))
(declare-const x2 F)
(declare-const y2 F)
(assert (= x2 y2))
",
    ),
    ROUND,
    OUTPUTS,
];

/// Two copies of rounds of width 1 with equal inputs whose outputs differ.
pub const MIMC: &[Part] = &[
    Part::Once(
        "(declare-const k0 F)
(declare-const x0 F)
(declare-const y0 F)
(assert (= x0 y0))
",
    ),
    Part::Each(
        "(declare-const x{i+1} F)
(declare-const y{i+1} F)
(assert (= x{i+1} (let ((u (ff.add x{i} k0 (as ff{3i+1} F)))) (ff.mul u u u u u u u))))
(assert (= y{i+1} (let ((u (ff.add y{i} k0 (as ff{3i+1} F)))) (ff.mul u u u u u u u))))
",
    ),
    Part::Once("(assert (not (= x{n} y{n})))\n"),
];

/// The script of a family.
pub fn parts_of(name: &str) -> Option<&'static [Part]> {
    match name {
        "rounds" => Some(PERMUTATION),
        "rounds-open" => Some(OPEN),
        "mimc" => Some(MIMC),
        _ => None,
    }
}
