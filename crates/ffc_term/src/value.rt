//! Values of nodes, and assignments of values to the constants.
ghost use Rattle.std.specs.Prelude.{◌≡◌};
ghost use Rattle.ffc_term.specs.Values.{truth, residue, value_in, truth_in, constant_residue};

use std::marker::Model;

/// The value of a node: a truth value, or a residue.
#[derive(Clone, Copy, Debug, PartialEq, Eq)]
pub enum Value {
    Bool(bool),
    Field(u64),
}

impl Value {
    /// Whether it is true; a residue is not.
    pub fn truth(self) -> bool
        ensures { result ≡ truth self }
    {
        match self {
            Value::Bool(b) => b,
            Value::Field(_) => false,
        }
    }

    /// Its residue; that of a truth value is 0.
    pub fn residue(self) -> u64
        ensures { result ≡ residue self }
    {
        match self {
            Value::Bool(_) => 0,
            Value::Field(n) => n,
        }
    }
}

/// A value for each constant, by the constant's number. Clauses see it as the list alone.
#[derive(Debug, Drop)]
pub struct Assignment {
    values: Vec<Value>,
}

impl Model for Assignment {
    ghost use Rattle.std.specs.Prelude.{List};
    ghost use Rattle.ffc_term.specs.declared.value.Value.{Value as NodeValue};

    ghost Value = { List NodeValue };

    ghost view = { λ a. a.values.items };
}

impl Assignment {
    /// The vector as an assignment. It takes no memory.
    pub fn new(values: Vec<Value>) -> Self
        ensures { result ≡ values.items }
    {
        Assignment { values }
    }

    pub fn as_slice(&self) -> &[Value]
        ensures { result.now ≡ self.now }
    {
        self.values.as_slice()
    }

    /// The assignment as a vector. It takes no memory.
    pub fn into_vec(self) -> Vec<Value>
        ensures { result.items ≡ self }
    {
        let Assignment { values } = self;
        values
    }

    /// The value of the constant of this number; false where there is none.
    pub fn value(&self, constant: u32) -> Value
        ensures { result ≡ value_in self.now constant }
    {
        match self.values.get(constant as usize) {
            Some(value) => *value,
            None => Value::Bool(false),
        }
    }

    /// The truth value of the Boolean constant of this number; false where there is none.
    pub fn truth(&self, constant: u32) -> bool
        ensures { result ≡ truth_in self.now constant }
    {
        self.value(constant).truth()
    }

    /// The residue of the field constant of this number and order; 0 where there is none below the order.
    pub fn residue(&self, constant: u32, order: u64) -> u64
        ensures { result ≡ constant_residue self.now constant order }
    {
        let found = self.value(constant).residue();
        if found < order { found } else { 0 }
    }
}
