//! What holds of sorts, degrees and lengths in every table, for the crates above.
ghost use Rattle.ffc_term.specs.Growth.{FieldChildrenAreOfOneOrder, GrownTablesCanBeCut, MeasuresFollowFromChildren};
ghost use Rattle.ffc_term.specs.Growth.{MeasuresStay};

/// A node's sort, degree and length follow from those of its children.
pub fn measures_follow_from_children()
    ensures { MeasuresFollowFromChildren }
{}

/// Further nodes change no sort, degree or length.
pub fn measures_stay()
    ensures { MeasuresStay }
{}

/// The field children of a node are of one order, which is that of the node unless it is an equality.
pub fn field_children_are_of_one_order()
    ensures { FieldChildrenAreOfOneOrder }
{}

/// What was added after a table may be dropped.
pub fn grown_tables_can_be_cut()
    ensures { GrownTablesCanBeCut }
{}
