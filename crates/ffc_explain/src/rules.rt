//! The faults of form and the rules of certificates in words.

/// The name of a fault of form, by its code.
pub fn form_name(code: u64) -> &'static str {
    match code {
        1 => "header",
        2 => "form",
        3 => "number",
        4 => "ended",
        5 => "length",
        _ => "another fault",
    }
}

/// What a fault of form says, by its code.
pub fn form_sentence(code: u64) -> &'static str {
    match code {
        1 => "line 1 is neither `ffcert 1` nor `ffcert 2`, nor, with `--bits`, `ffcert 3`",
        2 => "no line of this form may come there",
        3 => "a number has a leading zero or is out of its range",
        4 => "the text ends before this line or this entry does",
        5 => "the entry has more than 67,108,864 bytes",
        _ => "a fault that has no name here",
    }
}

/// The name of a rule, by its number.
pub fn rule_name(rule: u64) -> &'static str {
    match rule {
        1 => "values",
        2 => "assume",
        3 => "node rule",
        4 => "hints",
        5 => "combination",
        6 => "chain",
        7 => "split",
        8 => "not closed",
        9 => "not empty",
        10 => "enumeration",
        11 => "limit",
        12 => "reference",
        13 => "bits",
        _ => "another rule",
    }
}

/// What a rule asks for, by its number.
pub fn rule_sentence(rule: u64) -> &'static str {
    match rule {
        1 =>
            "the values are those of the constants in scope, in order and each of its sort, and make all that is active true",
        2 => "an assumed clause is one of the active assertions and assumptions",
        3 => "a clause of a node is one that its kind has",
        4 =>
            "a clause follows by its hints: each but the last leaves one literal open, and the last leaves none",
        5 => "the coefficients of a combination are below the order",
        6 =>
            "a chain has the steps of its order over a line in its variable alone, and each step is an identity",
        7 => "the cases are all roots of a line, or all values of a variable",
        8 => "a branch ends with a line that is a constant other than 0",
        9 => "the last clause is empty",
        10 => "under each assignment something active is false",
        11 => "sizes are within the limits",
        12 => "what a line refers to is there",
        13 =>
            "a line of bits is a sum that stays between minus the order and the order, each of its variables is shown to be 0 or 1, and where the polynomial is not 0 the sum cannot be 0",
        _ => "a rule that has no name here",
    }
}
