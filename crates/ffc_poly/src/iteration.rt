//! Going over the terms of a polynomial.
ghost use Rattle.std.specs.Prelude.{◌≡◌, ◌≤◌, drop, length};

use crate::terms::TermList;
use ffc_field::Field;
use ffc_mono::MonoRef;

/// The terms of a polynomial, the leading one first, each as its coefficient and its borrowed monomial.
#[derive(Debug, Drop)]
pub struct TermIter<'a, F: Field> {
    terms: &'a TermList<F>,
    next: usize,
    ghost within: { next ≤ length terms.now },
}

impl<'a, F: Field> TermIter<'a, F> {
    pub(crate) fn new(terms: &'a TermList<F>) -> Self
        ensures { drop result.next result.terms.now ≡ terms.entry.now }
    {
        TermIter { terms, next: 0 }
    }
}

impl<'a, F: Field> Iterator for TermIter<'a, F> {
    ghost use Rattle.std.specs.Prelude.{drop};
    ghost use Rattle.std.specs.Iterator.{YieldsFirstBy, item_count};

    type Item = (F, MonoRef<'a>);

    ghost next_gives = { YieldsFirstBy (λ t. (F.value t.0, t.1.powers.now)) (λ s. drop s.next s.terms.now) };

    ghost remaining = { item_count (λ s. drop s.next s.terms.now) };

    fn next(&mut self) -> Option<(F, MonoRef<'a>)> {
        if self.next == self.terms.len() {
            return None;
        }
        let term = self.terms.get(self.next);
        self.next += 1;
        Some(term)
    }
}
