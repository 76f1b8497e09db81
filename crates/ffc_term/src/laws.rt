//! What holds of every table, for the crates above.
ghost use Rattle.ffc_term.specs.Laws.{ValuesAreOfSort, ValuesFollowFromChildren, ValuesStay, ConstantsDecide};
ghost use Rattle.ffc_term.specs.Laws.{NodesAreOneList, MeasuresAreOne};

/// The value of each node is of the node's sort, under every assignment.
pub fn values_are_of_sort()
    ensures { ValuesAreOfSort }
{}

/// The value of a node is that of its variant, from the values of its children.
pub fn values_follow_from_children()
    ensures { ValuesFollowFromChildren }
{}

/// Further nodes change no value.
pub fn values_stay()
    ensures { ValuesStay }
{}

/// Two assignments that agree on the constants among a check's nodes agree on all its nodes.
pub fn constants_decide()
    ensures { ConstantsDecide }
{}

/// A check has one increasing list of nodes.
pub fn nodes_are_one_list()
    ensures { NodesAreOneList }
{}

/// A check has one span and one work.
pub fn measures_are_one()
    ensures { MeasuresAreOne }
{}
