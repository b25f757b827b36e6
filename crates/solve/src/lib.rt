// The whole run of a sheet, in both modes.
#![tactic(auto)]

pub mod counts;
pub mod law;
pub mod modes;
mod separate;

ghost use Rattle.std.specs.Prelude.{◌≡◌, [], ◌∷◌};
ghost use Rattle.record.specs.Lent.{levels_in, six_of, SameSix};
ghost use Rattle.record.specs.Model.{clipped_of};
ghost use Rattle.rounds.specs.Whole.{loan};
ghost use Rattle.solve.specs.Solve.{SolveIs, answered, numbers_in};

use contents::Sheet;
use record::Run;
use record::lent::{Buffers, Given};
use record::places::clipped_of;
use refusal::Refusal;
use rounds::{Ran, run_value};

// What a whole run answers that is not refused: done, with each channel's number of clipped coefficients, or blown.
// Kept: done or blown, both of a call that isn't refused, as `Ran` has them of a run; as an `Option<[u32; 3]>` in the `Ok` each caller would have to know that `None` is blown.
#[derive(Clone, Copy)]
pub enum Solved {
    Done([u32; 3]),
    Blown,
}

// The numbers that a run's channels keep.
fn numbers_of(run: Run) -> [u32; 3]
    ensures { result ≡ clipped_of run 0 ∷ clipped_of run 1 ∷ clipped_of run 2 ∷ [] }
{
    [clipped_of(run, 0), clipped_of(run, 1), clipped_of(run, 2)]
}

// The six buffers of a sheet after 5N jobs, in its mode, both totals of each blend, run after run and step after step, and each channel's number. It looks
// at everything first, and answers `Blown` where a channel is blown. Rules out: the channel's own data weight in separate mode; the starting planes, or planes
// one step short, for those after the last job; in separate mode the number of the last channel for each; the totals of the runs step by step.
// Kept: s, given, lent and totals, here and in `separate`: in a struct the two `&mut` would need in each contract that each is still the same buffer.
pub fn solve(
    s: Sheet,
    given: Given,
    lent: &mut Buffers,
    totals: &mut [f64],
) -> Result<Solved, Refusal>
    ensures is { SolveIs s (levels_in given.entry) given.entry.tables.now
        (loan (six_of lent.old) totals.old) (answered result) (numbers_in result) (loan (six_of lent.new) totals.new) }
    ensures same { SameSix lent.old lent.new }
{
    modes::solve_refusal(s, &lent.lengths(), totals.len(), given)?;
    if s.header.joint {
        let mut run = modes::joint_of(s);
        let accepted = run_value(&mut run, given, lent, totals)?;
        let Ran::Done = accepted else {
            return Ok(Solved::Blown);
        };
        return Ok(Solved::Done(numbers_of(run)));
    }
    separate::separate(s, given, lent, totals)
}
