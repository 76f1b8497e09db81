//! Scripts with entries that the definitions are tried on. The function has an empty body: what its contract says was computed
//! from the bytes of the scripts.
ghost use Rattle.ffc_answer.specs.Rows.{AreAnswers};

/// Models, values, cores, assumptions, reasons and faults.
pub fn answers()
    ensures { AreAnswers }
{}
