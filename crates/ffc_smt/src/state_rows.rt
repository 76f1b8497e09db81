//! More scripts that the definitions are tried on. Each function has an empty body: what its contract says was computed
//! from the bytes of the scripts.
ghost use Rattle.ffc_smt.specs.StateRows.{AreCommands, AreLimits, AreMade, AreOrders, AreScopes, AreTables};

/// Which names, levels and options there are.
pub fn scopes()
    ensures { AreScopes }
{}

/// Checks with their tables.
pub fn tables()
    ensures { AreTables }
{}

/// The order that is named first.
pub fn orders()
    ensures { AreOrders }
{}

/// The nodes that functions make, in order.
pub fn made_nodes()
    ensures { AreMade }
{}

/// Heights, weights and the number of nodes, at small limits.
pub fn at_limits()
    ensures { AreLimits }
{}

/// Options, information, effects and the text of what is asked for.
pub fn commands()
    ensures { AreCommands }
{}
