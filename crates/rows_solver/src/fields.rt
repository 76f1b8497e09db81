//! Operations of the fields, and their laws.
use crate::naming::{field_name, named};
use crate::page::Page;
use crate::reading::Words;
use ffc_field::{
    BabyBear, F2, F3, F5, F17, F65537, Field, FieldId, ForField, Goldilocks, KoalaBear, laws,
};

/// An operation on elements.
#[derive(Clone, Copy)]
enum Verb {
    Sum,
    Product,
    Power,
    Inverse,
}

const VERBS: [(&str, Verb); 4] = [
    ("sum", Verb::Sum),
    ("product", Verb::Product),
    ("power", Verb::Power),
    ("inverse", Verb::Inverse),
];

/// The sum of two elements and their difference, each in two ways.
fn write_sums<F: Field>(page: &mut Page, a: F, b: F) {
    page.number(a.add(b).residue());
    page.count(", scaled by 1 ", a.add_scaled(b, F::of(1)).residue());
    page.count(", less ", a.sub(b).residue());
    page.count(", negated ", b.neg().add(a).residue());
}

/// Writes the inverse of an element.
fn write_inverse<F: Field>(page: &mut Page, a: F) {
    match a.inv() {
        Some(inverse) => page.number(inverse.residue()),
        None => page.say("none"),
    }
}

/// Computes with elements of a field.
pub fn row<F: Field>(words: &mut Words<'_>, page: &mut Page) -> Option<()> {
    let verb = named(&VERBS, words.next()?)?;
    let a = words.element::<F>()?;
    match verb {
        Verb::Sum => write_sums(page, a, words.element::<F>()?),
        Verb::Product => page.number(a.mul(words.element::<F>()?).residue()),
        Verb::Power => page.number(a.pow(words.number()?).residue()),
        Verb::Inverse => write_inverse(page, a),
    }
    Some(())
}

/// Tells the order of a field, and what 3 times 5 is in it.
#[derive(Drop)]
struct Describe;

impl ForField for Describe {
    type Out = (u64, u64);

    ghost can_run = { λ _ _. Unit {0} };

    ghost gives = { λ _ _ _. Unit {0} };

    fn run<F: Field>(self) -> (u64, u64) {
        (F::ORDER, F::of(3).mul(F::of(5)).residue())
    }
}

/// Describes the field of an order.
pub fn order(words: &mut Words<'_>, page: &mut Page) -> Option<()> {
    match FieldId::of_order(words.next()?.parse::<u128>().ok()?) {
        None => page.say("no field"),
        Some(id) => {
            let (order, product) = id.run(Describe);
            page.say(field_name(id));
            page.count(", order ", id.order());
            page.count(", by its type ", order);
            page.count(", 3 times 5 is ", product);
        }
    }
    Some(())
}

/// The laws, at one element of the field.
fn call_laws<F: Field>(x: F) {
    laws::ring::<F>();
    laws::powers::<F>();
    laws::no_zero_divisors::<F>();
    laws::fermat(x);
    laws::inverses::<F>();
}

/// Calls each law at each field. The calls do nothing when they run: they are proved.
pub fn laws(page: &mut Page) -> Option<()> {
    call_laws(F2::of(3));
    call_laws(F3::of(3));
    call_laws(F5::of(3));
    call_laws(F17::of(3));
    call_laws(F65537::of(3));
    call_laws(BabyBear::of(3));
    call_laws(KoalaBear::of(3));
    call_laws(Goldilocks::of(3));
    laws::proth();
    laws::orders();
    page.say("called");
    Some(())
}
