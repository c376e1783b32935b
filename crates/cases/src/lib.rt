// The table of cases: what the network does, and what is then seen. One theorem says of every row that playing it gives it.
#![tactic(auto)]

ghost use Rattle.cases.specs.Table.{EveryRowHolds};

// Every row of the table holds.
pub fn every_row_holds()
    ensures { EveryRowHolds }
{}
