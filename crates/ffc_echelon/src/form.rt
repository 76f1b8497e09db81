//! Echelon forms.
ghost use Rattle.std.specs.Prelude.{◌≡◌, ◌+◌, ◌↔◌, IfOk, IsTrue, map};
ghost use Rattle.ffc_base.specs.declared.meter.Unit.TheVariants as unit;
ghost use Rattle.ffc_base.specs.declared.stop.Stop.TheVariants as stops;
ghost use Rattle.ffc_echelon.specs.Vectors.{IsBelow};
ghost use Rattle.ffc_echelon.specs.Forms.{IsReduced, IsRestOf, LeadsIn};
ghost use Rattle.ffc_echelon.specs.Units.{TakesAtMost};

use crate::reduction::reduce_by;
use crate::vector::Vector;
use ffc_base::{Meter, Stop};
use ffc_field::Field;
use std::marker::Model;

/// A row of an echelon form, with how it was made: from an input, less multiples of rows before it, times a scale.
#[derive(Drop)]
pub(crate) struct Row<F: Field> {
    pub(crate) vector: Vector<F>,
    pub(crate) input: u32,
    pub(crate) multipliers: Vec<(u32, F)>,
    pub(crate) scale: F,
}

impl<F: Field> Model for Row<F> {
    ghost use Rattle.std.specs.Prelude.{map};
    ghost use Rattle.ffc_echelon.specs.Forms.{Kept};

    ghost Value = { Kept };

    ghost view = { λ r. record {
      coordinates = r.vector;
      input = r.input;
      multipliers = map (λ m. (m.0, F.value m.1)) r.multipliers.items;
      scale = F.value r.scale;
    } };
}

/// An echelon form of affine forms, each with the constant in the column after its unknowns.
#[derive(Drop)]
pub struct Echelon<F: Field> {
    pub(crate) unknowns: u32,
    pub(crate) inputs: u32,
    pub(crate) rows: Vec<Row<F>>,
    /// For each unknown the row that leads in its column.
    pub(crate) leads: Vec<Option<u32>>,
}

impl<F: Field> Model for Echelon<F> {
    ghost use Rattle.std.specs.Prelude.{◌+◌, ◌<◌, ◌^◌};
    ghost use Rattle.ffc_echelon.specs.Forms.{Form, AreLeading};
    ghost use Rattle.ffc_echelon.specs.Progress.{AreLeads};

    ghost Value = { Form };

    ghost view = { λ e. record { unknowns = e.unknowns; inputs = e.inputs; kept = e.rows.items } };

    ghost invariant = { λ e. AreLeading e.unknowns e.rows.items
        × AreLeads e.unknowns e.rows.items e.leads.items
        × (e.unknowns + 1 < 2 ^ 32) };
}

/// What is left of a vector where multiples of the rows of an echelon form were subtracted, and those multiples.
#[derive(Drop)]
pub struct Reduction<F: Field> {
    pub rest: Vector<F>,
    pub(crate) multipliers: Vec<(u32, F)>,
}

impl<F: Field> Echelon<F> {
    /// What is left of a vector without coordinates in the columns in which rows lead. Each multiple is a Reduction.
    pub fn reduce(&self, vector: &Vector<F>, meter: &mut Meter) -> Result<Reduction<F>, Stop>
        requires within { IsBelow (self.now.unknowns + 1) vector.now }
        ensures rest { IfOk result (λ r. IsRestOf F.ORDER self.now.kept vector.now r.rest
            (map (λ m. (m.0, F.value m.1)) r.multipliers.items)) }
        ensures reduced { IfOk result (λ r. IsReduced self.now.kept r.rest) }
        ensures below { IfOk result (λ r. IsBelow (self.now.unknowns + 1) r.rest) }
        ensures units { TakesAtMost unit.Reduction self.now.unknowns stops.Spent result meter.old meter.new }
    {
        reduce_by(
            *self.rows.allocator(),
            self.rows.as_slice(),
            self.leads.as_slice(),
            vector,
            meter,
        )
    }
    /// Whether a row leads in the column. It takes no unit.
    pub fn leads_in(&self, column: u32) -> bool
        ensures { IsTrue result ↔ LeadsIn self.now.kept column }
    {
        match self.leads.get(column as usize) {
            Some(lead) => lead.is_some(),
            None => false,
        }
    }
}
