// Ordinary weights never blow, of a whole sheet, of `serve`, of `solve` and of the program. The laws are
// contracts of functions that have nothing to do: the statements are in specs/ and their proofs in proofs/.
#![tactic(auto)]

ghost use Rattle.unblown.specs.Sheet.{MildSheetNeverBlows};
ghost use Rattle.unblown.specs.Calls.{ServeNeverBlown, SolveNeverBlown};
ghost use Rattle.unblown.specs.Calls.{ContentsNeverBlow, ReadNeverBlows, SmoothPaints};

/// The run of a sheet with weights of at most 1 and at most 20 iterations is never marked, nor is one of the
/// runs that it has in separate mode, and no such sheet with legal levels blows, whoever read it.
// Rules out: a sheet that blows in separate mode alone, or for a partner alone.
pub fn mild_sheets_law()
    ensures runs { MildSheetNeverBlows }
    ensures contents { ContentsNeverBlow }
    ensures texts { ReadNeverBlows }
{}

/// On such numbers `serve` never answers 255 or 10, `solve` never says that a channel is blown, and `smooth`
/// prints its totals and picture.
// Rules out: 255 for a project of the twentieth step; a line `X` with 10 for a text that is read.
pub fn mild_calls_law()
    ensures serve { ServeNeverBlown }
    ensures solve { SolveNeverBlown }
    ensures smooth { SmoothPaints }
{}
