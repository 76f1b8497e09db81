//! The linear lines of a stack, without the variables that are no bits.
use crate::derived::Source;
use crate::integers::of_residue;
use crate::known::{Known, Rule, Rules};
use ffc_field::Field;
use ffc_line::Line;
use ffc_mono::MonoOrder;
use ffc_poly::Poly;
use std::alloc::{AllocError, Global};
use std::collections::BTreeMap;
use std::mem;

/// Lines with more variables that are no bits are left out.
const MOST_OTHERS: usize = 16;

/// The variables that are bits, with the lines that say so.
pub type Bits = BTreeMap<u32, Source>;

/// A linear polynomial, with the multiples of lines that it is the sum of. Its coefficients and factors are residues: what has
/// elements in it is made anew for each field.
#[derive(Drop)]
pub struct Form {
    pub constant: u64,
    pub terms: BTreeMap<u32, u64>,
    pub parts: Vec<(Source, u64)>,
}

/// The variable of a polynomial that says that it is a bit: a multiple of x*x - x.
pub fn bit_of<F: Field, O: MonoOrder>(poly: &Poly<F, O>) -> Option<u32> {
    if poly.len() != 2 {
        return None;
    }
    let (c, m) = poly.term(0);
    let (d, n) = poly.term(1);
    match (m.pairs(), n.pairs()) {
        ([square], [single]) => {
            let is_bit = square.1 == 2
                && single.1 == 1
                && square.0 == single.0
                && c.add(d).residue() == 0;
            if is_bit { Some(square.0) } else { None }
        }
        _ => None,
    }
}

/// Adds the bits of the lines.
pub fn add_bits<F: Field, O: MonoOrder>(
    bits: &mut Bits,
    lines: &[Line<F, O>],
) -> Result<(), AllocError> {
    for (place, line) in lines.iter().enumerate() {
        if let Some(x) = bit_of(&line.poly) {
            let is_known = matches!(bits.get(&x), Some(Source::Line(_)));
            if !is_known {
                bits.insert(x, Source::Line(place as u64))?;
            }
        }
    }
    Ok(())
}

/// The form of a line, where it is linear and no constant.
fn form_of<F: Field, O: MonoOrder>(
    alloc: Global,
    poly: &Poly<F, O>,
    place: usize,
) -> Result<Option<Form>, AllocError> {
    match poly.lead() {
        Some((_, m)) if m.degree() == 1 => {}
        _ => return Ok(None),
    }
    let mut form = Form::none(alloc);
    for (c, m) in poly.iter() {
        match m.pairs() {
            [] => form.constant = c.residue(),
            [power] if power.1 == 1 => {
                form.terms.insert(power.0, c.residue())?;
            }
            _ => return Ok(None),
        }
    }
    form.parts.push((Source::Line(place as u64), 1))?;
    Ok(Some(form))
}

impl Form {
    /// 0, as the sum of no lines.
    fn none(alloc: Global) -> Self {
        Form {
            constant: 0,
            terms: BTreeMap::new(alloc),
            parts: Vec::new(alloc),
        }
    }

    /// A copy.
    fn copied(&self, alloc: Global) -> Result<Self, AllocError> {
        let mut terms = BTreeMap::new(alloc);
        for (x, c) in &self.terms {
            terms.insert(*x, *c)?;
        }
        let mut parts = Vec::new(alloc);
        parts.extend_from_slice(self.parts.as_slice())?;
        Ok(Form {
            constant: self.constant,
            terms,
            parts,
        })
    }

    /// How many of its variables are no bits.
    fn count_others(&self, bits: &Bits) -> usize {
        let mut count = 0usize;
        for (x, _) in &self.terms {
            if !bits.contains_key(x) {
                count = count.saturating_add(1);
            }
        }
        count
    }

    /// The first variable that is no bit and has a pivot, or has none, as it is asked for.
    fn other(&self, bits: &Bits, pivots: &BTreeMap<u32, usize>, has_pivot: bool) -> Option<u32> {
        for (x, _) in &self.terms {
            if !bits.contains_key(x) && pivots.contains_key(x) == has_pivot {
                return Some(*x);
            }
        }
        None
    }

    /// Subtracts the multiple of another form that cancels a variable.
    fn cancel<F: Field>(&mut self, other: &Form, x: u32) -> Result<(), AllocError> {
        let Some(inverse) = other.coefficient::<F>(x).inv() else {
            return Ok(());
        };
        let own = self.coefficient::<F>(x);
        let factor = own.mul(inverse).neg();
        self.add_constant(of_residue::<F>(other.constant).mul(factor));
        for (y, c) in &other.terms {
            self.add(*y, of_residue::<F>(*c).mul(factor))?;
        }
        for (source, c) in &other.parts {
            let product = of_residue::<F>(*c).mul(factor);
            self.parts.push((*source, product.residue()))?;
        }
        Ok(())
    }

    /// The coefficient of a variable, which is 0 where it is not among the terms.
    fn coefficient<F: Field>(&self, x: u32) -> F {
        match self.terms.get(&x) {
            Some(c) => of_residue(*c),
            None => F::of(0),
        }
    }

    /// Adds to the constant.
    fn add_constant<F: Field>(&mut self, c: F) {
        self.constant = of_residue::<F>(self.constant).add(c).residue();
    }

    /// Adds a multiple of a variable.
    fn add<F: Field>(&mut self, x: u32, c: F) -> Result<(), AllocError> {
        let sum = self.coefficient::<F>(x).add(c).residue();
        if sum == 0 {
            self.terms.remove(&x);
        } else {
            self.terms.insert(x, sum)?;
        }
        Ok(())
    }

    /// Replaces a bit by what is known of it.
    fn replace<F: Field>(&mut self, x: u32, rule: &Rule) -> Result<(), AllocError> {
        let c = self.coefficient::<F>(x);
        let Some(inverse) = of_residue::<F>(rule.factor).inv() else {
            return Ok(());
        };
        self.terms.remove(&x);
        match rule.known {
            Known::Value(false) => {}
            Known::Value(true) => self.add_constant(c),
            Known::Same(y) => self.add(y, c)?,
            Known::Opposite(y) => {
                self.add_constant(c);
                self.add(y, c.neg())?;
            }
        }
        let factor = c.neg().mul(inverse);
        self.parts.push((rule.source, factor.residue()))?;
        Ok(())
    }

    /// Puts what is known of single bits into the form.
    pub fn apply<F: Field>(&mut self, alloc: Global, rules: &Rules) -> Result<(), AllocError> {
        for _ in 0..u64::MAX {
            let mut open = Vec::new(alloc);
            for (x, _) in &self.terms {
                if rules.has(*x) {
                    open.push(*x)?;
                }
            }
            if open.is_empty() {
                break;
            }
            for x in open {
                if let Some(rule) = rules.get(x) {
                    self.replace::<F>(x, rule)?;
                }
            }
        }
        Ok(())
    }

    /// The bit that the form replaces, where it only says the value of a bit, or that two bits are equal or opposite.
    pub fn rule<F: Field>(&self, bits: &Bits) -> Option<(u32, Rule)> {
        let [(source, _)] = self.parts.as_slice() else {
            return None;
        };
        if self.terms.len() > 2 || self.count_others(bits) > 0 {
            return None;
        }
        let mut terms = self.terms.iter();
        let (x, residue) = terms.next()?;
        let factor = of_residue::<F>(*residue);
        let constant = of_residue(self.constant);
        let known = match terms.next() {
            None => known_value(factor, constant)?,
            Some((y, c)) => known_pair(factor, of_residue(*c), constant, *y)?,
        };
        let rule = Rule {
            known,
            source: *source,
            factor: *residue,
        };
        Some((*x, rule))
    }
}

/// What factor*x + constant = 0 says of a bit x, where that is a value of it.
fn known_value<F: Field>(factor: F, constant: F) -> Option<Known> {
    if constant.residue() == 0 {
        Some(Known::Value(false))
    } else if constant.add(factor).residue() == 0 {
        Some(Known::Value(true))
    } else {
        None
    }
}

/// What factor*x + c*y + constant = 0 says of two bits, where they are equal or opposite.
fn known_pair<F: Field>(factor: F, c: F, constant: F, y: u32) -> Option<Known> {
    if constant.residue() == 0 && factor.add(c).residue() == 0 {
        Some(Known::Same(y))
    } else if factor == c && constant.add(factor).residue() == 0 {
        Some(Known::Opposite(y))
    } else {
        None
    }
}

/// The linear lines with few variables that are no bits.
fn linear_forms<F: Field, O: MonoOrder>(
    alloc: Global,
    lines: &[Line<F, O>],
    bits: &Bits,
) -> Result<Vec<Form>, AllocError> {
    let mut forms = Vec::new(alloc);
    for (place, line) in lines.iter().enumerate() {
        if let Some(form) = form_of(alloc, &line.poly, place)? {
            if form.count_others(bits) <= MOST_OTHERS {
                forms.push(form)?;
            }
        }
    }
    Ok(forms)
}

/// The forms in bits alone that other forms lead to: those that have other variables serve to cancel these in later ones.
#[derive(Drop)]
struct Elimination {
    pivots: BTreeMap<u32, usize>,
    others: Vec<Form>,
    found: Vec<Form>,
}

impl Elimination {
    fn new(alloc: Global) -> Self {
        Elimination {
            pivots: BTreeMap::new(alloc),
            others: Vec::new(alloc),
            found: Vec::new(alloc),
        }
    }

    /// Adds a form.
    fn add<F: Field>(&mut self, bits: &Bits, mut form: Form) -> Result<(), AllocError> {
        for _ in 0..MOST_OTHERS {
            let Some(x) = form.other(bits, &self.pivots, true) else {
                break;
            };
            if let Some(pivot) = self
                .pivots
                .get(&x)
                .and_then(|place| self.others.get(*place))
            {
                form.cancel::<F>(pivot, x)?;
            }
        }
        if form.count_others(bits) == 0 {
            self.found.push(form)?;
        } else if let Some(x) = form.other(bits, &self.pivots, false) {
            self.pivots.insert(x, self.others.len())?;
            self.others.push(form)?;
        }
        Ok(())
    }
}

/// Whether a form has more than one variable that is no bit, where the counts of these increase.
fn has_several(counts: &[(usize, usize)]) -> bool {
    match counts.last() {
        Some((count, _)) => *count > 1,
        None => false,
    }
}

/// The forms in bits alone that the linear lines lead to: first those that are so, then those in which other variables cancel.
/// Which of these there are rests on which lines come first, so they are found both ways: where the lines with few other
/// variables come first, which say what a number's bits are, and where the lines with many do, which compare numbers.
pub fn bit_forms<F: Field, O: MonoOrder>(
    alloc: Global,
    lines: &[Line<F, O>],
    bits: &Bits,
) -> Result<Vec<Form>, AllocError> {
    let mut found = Vec::new(alloc);
    let mut others = Vec::new(alloc);
    let mut counts = Vec::new(alloc);
    for form in linear_forms(alloc, lines, bits)? {
        let count = form.count_others(bits);
        if count == 0 {
            found.push(form)?;
        } else {
            counts.push((count, others.len()))?;
            others.push(form)?;
        }
    }
    counts.sort_unstable();
    let mut many = Elimination::new(alloc);
    if has_several(counts.as_slice()) {
        for (_, place) in counts.iter().rev() {
            if let Some(form) = others.get(*place) {
                many.add::<F>(bits, form.copied(alloc)?)?;
            }
        }
    }
    let mut few = Elimination::new(alloc);
    for (_, place) in &counts {
        if let Some(form) = others.get_mut(*place) {
            few.add::<F>(bits, mem::replace(form, Form::none(alloc)))?;
        }
    }
    for form in few.found {
        found.push(form)?;
    }
    for form in many.found {
        found.push(form)?;
    }
    Ok(found)
}
