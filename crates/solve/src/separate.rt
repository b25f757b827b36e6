// Separate mode: each channel is a run of its own, on its part of the lent buffers.
ghost use Rattle.std.specs.Prelude.{◌≡◌, ◌*◌, ◌<◌, length};
ghost use Rattle.record.specs.Lent.{levels_in, six_of, SameSix};
ghost use Rattle.record.specs.Model.{Legal};
ghost use Rattle.rounds.specs.Whole.{six, loan, RunIs};
ghost use Rattle.solve.specs.Solve.{joint, alone, answered, numbers_in};
ghost use Rattle.solve.specs.Separate.{PartsAre, AloneAsks, AloneIs, SeparateAsks, SeparateIs};

use crate::Solved;
use crate::counts::steps_before;
use crate::modes::{alone_of, joint_of};
use contents::Sheet;
use record::Run;
use record::legal::{LegalRun, Turn};
use record::lent::{Buffers, Given};
use record::places::clipped_of;
use refusal::Refusal;
use rounds::{Ran, run_value};

// Where channel c's part begins and ends in the lent buffers, in the levels, in the tables and in the totals.
// Kept: std's `Range` is not Copy; with four of them six of the ten uses would be a clone.
#[derive(Clone, Copy)]
struct Parts {
    from: usize,
    to: usize,
    levels_from: usize,
    levels_to: usize,
    tables_from: usize,
    tables_to: usize,
    totals_from: usize,
    totals_to: usize,
}

fn parts_of(s: Sheet, c: u32) -> Parts
    requires { Legal (joint s) × (c < s.header.channels) }
    ensures { PartsAre s c result.from result.to result.levels_from result.levels_to result.tables_from result.tables_to result.totals_from result.totals_to }
{
    let legal = LegalRun { run: joint_of(s) };
    let turn = Turn { legal, c };
    let span = turn.span();
    let l = legal.levels_before(c);
    let m = legal.levels_before(c + 1);
    let t = (c as usize) * 64;
    let x = steps_before(s, c) * 2;
    let y = steps_before(s, c + 1) * 2;
    Parts {
        from: span.from,
        to: span.to,
        levels_from: l,
        levels_to: m,
        tables_from: t,
        tables_to: t + 64,
        totals_from: x,
        totals_to: y,
    }
}

// A run on the six, lent one by one.
// Kept: tried with `Buffers` of the parts made in `alone_value` itself. The borrow checker passes it, but the proof then knows only each part's length;
// of a call that is lent the parts themselves it knows what they hold afterwards.
fn run_six(
    run: &mut Run,
    given: Given,
    plane: &mut [f32],
    prior: &mut [f32],
    gradient: &mut [f32],
    across: &mut [f32],
    down: &mut [f32],
    saved: &mut [f32],
    totals: &mut [f64],
) -> Result<Ran, Refusal>
    requires { length totals.old ≡ run.old.n * 2 }
    ensures { RunIs run.old (levels_in given.entry) given.entry.tables.now
        (loan (six plane.old prior.old gradient.old across.old down.old saved.old) totals.old) result run.new
        (loan (six plane.new prior.new gradient.new across.new down.new saved.new) totals.new) }
{
    let mut lent = Buffers {
        plane,
        prior,
        gradient,
        across,
        down,
        saved,
    };
    run_value(run, given, &mut lent, totals)
}

// Channel c's run. Its part of each buffer is lent on to be written.
fn alone_value(
    s: Sheet,
    c: u32,
    run: &mut Run,
    given: Given,
    lent: &mut Buffers,
    totals: &mut [f64],
) -> Result<Ran, Refusal>
    requires alone { run.old ≡ alone s c }
    requires asks { AloneAsks s c (levels_in given) given.tables.now (loan (six_of lent.old) totals.old) }
    ensures is { AloneIs s c (levels_in given.entry) given.entry.tables.now (loan (six_of lent.old) totals.old) result run.new
        (loan (six_of lent.new) totals.new) }
    ensures same { SameSix lent.old lent.new }
{
    let p = parts_of(s, c);
    run_six(
        run,
        Given {
            lows: &given.lows[p.levels_from..p.levels_to],
            highs: &given.highs[p.levels_from..p.levels_to],
            tables: &given.tables[p.tables_from..p.tables_to],
        },
        &mut lent.plane[p.from..p.to],
        &mut lent.prior[p.from..p.to],
        &mut lent.gradient[p.from..p.to],
        &mut lent.across[p.from..p.to],
        &mut lent.down[p.from..p.to],
        &mut lent.saved[p.from..p.to],
        &mut totals[p.totals_from..p.totals_to],
    )
}

// The channels' runs, from the first to the last. It stops at one that is blown.
pub fn separate(
    s: Sheet,
    given: Given,
    lent: &mut Buffers,
    totals: &mut [f64],
) -> Result<Solved, Refusal>
    requires { SeparateAsks s (levels_in given) given.tables.now (loan (six_of lent.old) totals.old) }
    ensures is { SeparateIs s (levels_in given.entry) given.entry.tables.now
        (loan (six_of lent.old) totals.old) (answered result) (numbers_in result) (loan (six_of lent.new) totals.new) }
    ensures same { SameSix lent.old lent.new }
{
    let mut clipped = [0u32; 3];
    let h = s.header;
    for c in 0..h.channels {
        let mut run = alone_of(s, c);
        let accepted = alone_value(s, c, &mut run, given, lent, totals)?;
        let Ran::Done = accepted else {
            return Ok(Solved::Blown);
        };
        clipped[c as usize] = clipped_of(run, 0);
    }
    Ok(Solved::Done(clipped))
}
