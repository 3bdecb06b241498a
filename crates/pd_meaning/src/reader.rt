//! Laws over the definitions, as contracts of functions that do nothing else.
ghost use Rattle.pd_meaning.specs.Laws.{MachineMeans, TurnKeeps, UsesAtMost};

/// The machine's turns and its end are those of the meaning.
pub fn machine_law()
    ensures turns { TurnKeeps }
    ensures ends { MachineMeans }
{}

/// No run uses more than its fuel.
pub fn fuel_law(fuel: u32)
    ensures { UsesAtMost fuel }
{}
