//! A line as an integer: each coefficient is its representative of least size, and each variable 0 or 1.
ghost use Rattle.std.specs.Prelude.{◌≡◌, ◌+◌, ◌^◌, ◌<◌, ◌≤◌, ◌∷◌, [], if◌then◌else◌};
ghost use Rattle.ffc_trees.specs.BitLines.{is_listed, is_among, above, below, size, terms_among, terms_besides};
ghost use Rattle.ffc_trees.specs.BitLines.{is_between, common_divisor, divisor_of, distance};
ghost use Rattle.ffc_ckpoly.specs.Sorted.{residues};
ghost use Rattle.ffc_cktree.specs.Extents.{IsExtent, IsSmall, IsLeft, is_apart};

use ffc_field::Field;

/// How far terms can be above 0 and below 0: the sums of their representatives above 0, and of those below 0.
#[derive(Clone, Copy, Debug)]
pub struct Extent {
    pub above: u128,
    pub below: u128,
}

/// The terms that no choice takes: their extent, and the greatest common divisor of their coefficients.
#[derive(Clone, Copy, Debug)]
pub struct Left {
    pub extent: Extent,
    pub divisor: u64,
}

/// Whether a variable is one of these.
pub fn is_listed(xs: &[u32], x: u32) -> bool
    ensures { result ≡ is_listed xs.now x }
{
    for y in xs {
        if x == *y {
            return true;
        }
    }
    false
}

/// Whether each variable of a monomial is one of these.
fn is_among(xs: &[u32], powers: &[(u32, u64)]) -> bool
    ensures { result ≡ is_among xs.now powers.now }
{
    for power in powers {
        if !is_listed(xs, power.0) {
            return false;
        }
    }
    true
}

/// How far a representative is above 0.
fn above(order: u64, residue: u64) -> u64
    requires { residue < order }
    ensures value { result ≡ above order residue }
    ensures small { result ≤ 2 ^ 63 }
{
    if residue < order - residue {
        residue
    } else {
        0
    }
}

/// How far a representative is below 0.
fn below(order: u64, residue: u64) -> u64
    requires { residue < order }
    ensures value { result ≡ below order residue }
    ensures small { result ≤ 2 ^ 63 }
{
    if residue < order - residue {
        0
    } else {
        order - residue
    }
}

/// How far a representative is from 0.
fn size(order: u64, residue: u64) -> u64
    requires { residue < order }
    ensures { result ≡ size order residue }
{
    if residue < order - residue {
        residue
    } else {
        order - residue
    }
}

impl Extent {
    /// With one representative more.
    fn with(self, order: u64, residue: u64) -> Extent
        requires residue { residue < order }
        requires above_fits { self.above + 2 ^ 63 < 2 ^ 128 }
        requires below_fits { self.below + 2 ^ 63 < 2 ^ 128 }
        ensures above { result.above ≡ self.above + above order residue }
        ensures below { result.below ≡ self.below + below order residue }
        ensures above_small { result.above ≤ self.above + 2 ^ 63 }
        ensures below_small { result.below ≤ self.below + 2 ^ 63 }
    {
        Extent {
            above: self.above + u128::from(above(order, residue)),
            below: self.below + u128::from(below(order, residue)),
        }
    }

    /// With a term more, if each of its variables is one of these.
    fn with_among<F: Field>(self, xs: &[u32], term: &(F, &[(u32, u64)])) -> Extent
        requires above_fits { self.above + 2 ^ 63 < 2 ^ 128 }
        requires below_fits { self.below + 2 ^ 63 < 2 ^ 128 }
        ensures above { result.above ≡ self.above
            + (if is_among xs.now term.now.1.now then above F.ORDER (F.value term.now.0) else 0) }
        ensures below { result.below ≡ self.below
            + (if is_among xs.now term.now.1.now then below F.ORDER (F.value term.now.0) else 0) }
        ensures above_small { result.above ≤ self.above + 2 ^ 63 }
        ensures below_small { result.below ≤ self.below + 2 ^ 63 }
    {
        if is_among(xs, term.1) {
            self.with(F::ORDER, term.0.residue())
        } else {
            self
        }
    }
}

/// The extent of all terms.
pub fn extent_of<F: Field>(terms: &[(F, &[(u32, u64)])]) -> Extent
    ensures sums { IsExtent F.ORDER result (residues F.value terms.now) }
    ensures small { IsSmall result }
{
    let mut extent = Extent { above: 0, below: 0 };
    for term in terms {
        extent = extent.with(F::ORDER, term.0.residue());
    }
    extent
}

/// The extent of the constant term and those of these variables.
pub fn extent_among<F: Field>(xs: &[u32], terms: &[(F, &[(u32, u64)])]) -> Extent
    ensures sums { IsExtent F.ORDER result (terms_among xs.now (residues F.value terms.now)) }
    ensures small { IsSmall result }
{
    let mut extent = Extent { above: 0, below: 0 };
    for term in terms {
        extent = extent.with_among(xs, term);
    }
    extent
}

/// Whether a line stays between -p and p, whatever bits its variables are.
pub fn is_between<F: Field>(all: Extent, terms: &[(F, &[(u32, u64)])]) -> bool
    requires { IsExtent F.ORDER all (residues F.value terms.now) }
    ensures { result ≡ is_between F.ORDER (residues F.value terms.now) }
{
    let constant = extent_among(&[], terms);
    let order = u128::from(F::ORDER);
    all.below < constant.above + order && all.above < constant.below + order
}

/// The greatest common divisor, by Euclid's algorithm.
fn common_divisor(a: u64, b: u64) -> u64
    ensures { result ≡ common_divisor a b }
{
    let mut divisor = a;
    let mut rest = b;
    while rest != 0 {
        let next = divisor % rest;
        divisor = rest;
        rest = next;
    }
    divisor
}

/// The greatest common divisor of a number and the coefficient of a term, unless each of its variables is one of these.
fn divisor_with<F: Field>(divisor: u64, xs: &[u32], term: &(F, &[(u32, u64)])) -> u64
    ensures { result ≡ (if is_among xs.now term.now.1.now then divisor
        else common_divisor (size F.ORDER (F.value term.now.0)) divisor) }
{
    if is_among(xs, term.1) {
        divisor
    } else {
        common_divisor(size(F::ORDER, term.0.residue()), divisor)
    }
}

/// The greatest common divisor of the coefficients of all other variables than these.
fn divisor_besides<F: Field>(xs: &[u32], terms: &[(F, &[(u32, u64)])]) -> u64
    ensures { result ≡ divisor_of F.ORDER (terms_besides xs.now (residues F.value terms.now)) }
{
    let mut divisor = 0;
    for place in (0..terms.len()).rev() {
        divisor = divisor_with(divisor, xs, &terms[place]);
    }
    divisor
}

/// What is left of a line besides these variables and the constant. It costs the line's terms, once for all choices.
pub fn left_besides<F: Field>(all: Extent, xs: &[u32], terms: &[(F, &[(u32, u64)])]) -> Left
    requires sums { IsExtent F.ORDER all (residues F.value terms.now) }
    requires small { IsSmall all }
    ensures left { IsLeft F.ORDER (residues F.value terms.now) xs.now result }
    ensures small { IsSmall result.extent }
{
    let taken = extent_among(xs, terms);
    Left {
        extent: Extent {
            above: all.above - taken.above,
            below: all.below - taken.below,
        },
        divisor: divisor_besides(xs, terms),
    }
}

/// How far one number is from another.
fn distance(a: u128, b: u128) -> u128
    ensures { result ≡ distance a b }
{
    if a < b { b - a } else { a - b }
}

/// Whether what is taken and any of what is left have no sum 0: it is above 0, or below 0, or no multiple of what divides
/// all that is left.
pub fn is_apart(taken: Extent, left: &Left) -> bool
    requires taken { IsSmall taken }
    requires left { IsSmall left.now.extent }
    ensures { result ≡ is_apart taken left.now }
{
    if taken.below + left.extent.below < taken.above {
        return true;
    }
    if taken.above + left.extent.above < taken.below {
        return true;
    }
    let distance = distance(taken.above, taken.below);
    if left.divisor == 0 {
        return distance != 0;
    }
    distance % u128::from(left.divisor) != 0
}
