//! Laws of echelon forms. The function has an empty body.
ghost use Rattle.ffc_echelon.specs.Laws.{SpannedVectorsLead, SumsLead};

/// Where sums of multiples of the rows of an echelon form lead.
pub fn spans()
    ensures vectors { SpannedVectorsLead }
    ensures sums { SumsLead }
{}
