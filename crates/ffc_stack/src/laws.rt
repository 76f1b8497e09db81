//! What follows from the clauses of a stack.
ghost use Rattle.ffc_stack.specs.Stacks.{PopUndoesPush, PushGoesOn};

use ffc_field::Field;
use ffc_mono::MonoOrder;

/// A pop drops what the last push added.
pub fn pop_undoes_push<F: Field, O: MonoOrder>()
    ensures { PopUndoesPush F O }
{}

/// Lines that are added to a pushed level are dropped with it.
pub fn push_goes_on<F: Field, O: MonoOrder>()
    ensures { PushGoesOn F O }
{}
