//! Names in rows, and what they stand for.
use ffc_field::FieldId;

/// What a name stands for in a table.
pub fn named<T: Copy>(table: &[(&str, T)], name: &str) -> Option<T> {
    for (known, meaning) in table {
        if *known == name {
            return Some(*meaning);
        }
    }
    None
}

const FIELDS: [(&str, FieldId); 8] = [
    ("F2", FieldId::F2),
    ("F3", FieldId::F3),
    ("F5", FieldId::F5),
    ("F17", FieldId::F17),
    ("F65537", FieldId::F65537),
    ("BabyBear", FieldId::BabyBear),
    ("KoalaBear", FieldId::KoalaBear),
    ("Goldilocks", FieldId::Goldilocks),
];

/// The field of a name.
pub fn field(name: &str) -> Option<FieldId> {
    named(&FIELDS, name)
}

/// The name of a field.
pub fn field_name(id: FieldId) -> &'static str {
    for (name, known) in FIELDS {
        if known == id {
            return name;
        }
    }
    "no name"
}

/// An order of monomials.
#[derive(Clone, Copy)]
pub enum MonomialOrder {
    Lex,
    GradedReverseLex,
}

const ORDERINGS: [(&str, MonomialOrder); 2] = [
    ("lex", MonomialOrder::Lex),
    ("grevlex", MonomialOrder::GradedReverseLex),
];

/// The order of monomials of a name.
pub fn ordering(name: &str) -> Option<MonomialOrder> {
    named(&ORDERINGS, name)
}

/// The letters of the first variables, which are in the order x > y > z > w > v.
pub const LETTERS: [(&str, u32); 5] = [("x", 0), ("y", 1), ("z", 2), ("w", 3), ("v", 4)];

/// A variable: a letter, or `x` and its number.
pub fn variable(name: &str) -> Option<u32> {
    if let Some(number) = named(&LETTERS, name) {
        return Some(number);
    }
    name.strip_prefix('x')?.parse::<u32>().ok()
}

/// The letter of a variable, where it has one.
pub fn letter(variable: u32) -> Option<&'static str> {
    for (letter, number) in LETTERS {
        if number == variable {
            return Some(letter);
        }
    }
    None
}
