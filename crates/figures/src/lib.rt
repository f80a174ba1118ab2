// The worked figures: one table of them, and one statement over it.
#![tactic(auto)]

ghost use Rattle.std.specs.Prelude.{◌≡◌, length};
ghost use Rattle.figures.specs.Table.{table, EveryRowHolds};

// How many there are. Every one of them holds.
pub fn worked_figures() -> usize
    ensures count { result ≡ length table }
    ensures hold { EveryRowHolds }
{
    34
}
