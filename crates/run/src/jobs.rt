// The public calls: each looks at everything it is lent, and refuses, the record and the buffers being left as they were, or does its job.
ghost use Rattle.std.specs.Prelude.{◌≡◌, ◌/◌};
ghost use Rattle.calls.specs.Run.{place};
ghost use Rattle.demand.specs.Solver.{constants_of};
ghost use Rattle.record.specs.Lent.{levels_in, six_of, SameSix};
ghost use Rattle.record.specs.Model.{sheet_of, places_of};
ghost use Rattle.run.specs.Public.{StartIs, PushIs, DataIs, BlendIs, MoveIs, ProjectIs};

use gradients::grid::Grid;
use parts::Handed;
use record::legal::Turn;
use record::lent::{Buffers, Given};
use record::refusals::{blend_refusal, fed_refusal, job_refusal, start_refusal};
use record::{Accepted, Job, Run};
use refusal::Refusal;
use steps::solve::Constants;

// The constants of the step that a channel's next job belongs to.
fn constants_of(turn: Turn) -> Constants
    ensures { result ≡ constants_of (sheet_of turn.legal.run) ((place (places_of turn.legal.run) turn.c).position / 5) }
{
    let run = turn.legal.run;
    steps::solve::step_constants(run.w, run.h, run.n, run.smoothing, turn.span().step)
}

// Push. Rules out: a plane handed back unmoved, a position counted up without the job, and a held channel's prior overwritten by its plane.
// Kept: `push` and `move_plane` are the Rust's two jobs. One function of both would take the lengths and the job as a closure, with a clause on what this leaves in what
// it borrows, and each would still be a call of it with its own job and buffers.
pub fn push(
    run: &mut Run,
    c: u32,
    plane: &mut [f32],
    prior: &mut [f32],
) -> Result<Accepted, Refusal>
    ensures { PushIs run.old c plane.old prior.old result run.new plane.new prior.new }
{
    let turn = job_refusal(*run, c, Job::Push, &[plane.len(), prior.len()])?;
    if !turn.held() {
        let k = constants_of(turn);
        steps::solve::push_channel(plane, prior, k, c as usize, turn.legal.area());
    }
    *run = turn.advanced();
    Ok(Accepted::Done)
}

// Data. Rules out: saved coefficients changed, the levels of another channel taken for this one's, and a held channel's gradient zeroed.
pub fn data(
    run: &mut Run,
    c: u32,
    given: Given,
    gradient: &mut [f32],
    saved: &[f32],
) -> Result<Accepted, Refusal>
    ensures { DataIs run.old c (levels_in given.entry) given.entry.tables.now gradient.old saved.now result run.new gradient.new }
{
    let lengths = [gradient.len(), saved.len()];
    let turn = fed_refusal(*run, c, Job::Data, &lengths, given)?;
    if !turn.held() {
        let handed = Handed { turn, given };
        handed.data(gradient, saved);
    }
    *run = turn.advanced();
    Ok(Accepted::Done)
}

// Blend. Rules out: a gradient that only one channel's plane goes into, positions of some channels left behind, and the totals of another step's planes.
pub fn blend(
    run: &mut Run,
    plane: &[f32],
    gradient: &mut [f32],
    across: &mut [f32],
    down: &mut [f32],
) -> Result<Accepted, Refusal>
    ensures { BlendIs run.old plane.now gradient.old across.old down.old
        result run.new gradient.new across.new down.new }
{
    let lengths = [plane.len(), gradient.len(), across.len(), down.len()];
    let legal = blend_refusal(*run, &lengths)?;
    let turn = Turn { legal, c: 0 };
    let k = constants_of(turn);
    let held = legal.held_flags();
    let g = Grid {
        n: run.count as usize,
        w: run.w as usize,
        h: run.h as usize,
        held,
    };
    let t = blend::blend(plane, gradient, across, down, g, k);
    *run = legal.blended();
    Ok(Accepted::Blended {
        tv: t.tv,
        tgv: t.tgv,
    })
}

// Move. Rules out: a move up the gradient, and the step size of another step.
// Kept: as `push`.
pub fn move_plane(
    run: &mut Run,
    c: u32,
    plane: &mut [f32],
    gradient: &[f32],
) -> Result<Accepted, Refusal>
    ensures { MoveIs run.old c plane.old gradient.now result run.new plane.new }
{
    let turn = job_refusal(*run, c, Job::Move, &[plane.len(), gradient.len()])?;
    if !turn.held() {
        let k = constants_of(turn);
        steps::step::move_channel(plane, gradient, k, c as usize, turn.legal.area());
    }
    *run = turn.advanced();
    Ok(Accepted::Done)
}

// Project. It answers how many coefficients it clipped, of a held channel the number kept before, and whether the channel is now marked blown.
// Rules out: every coefficient set to level × quantiser, a mark given before the values are blown, and the number of the project before answered for this one's.
pub fn project(
    run: &mut Run,
    c: u32,
    given: Given,
    plane: &mut [f32],
    across: &mut [f32],
    down: &mut [f32],
    saved: &mut [f32],
) -> Result<Accepted, Refusal>
    ensures { ProjectIs run.old c (levels_in given.entry) given.entry.tables.now plane.old across.old down.old saved.old
        result run.new plane.new across.new down.new saved.new }
{
    let lengths = [plane.len(), across.len(), down.len(), saved.len()];
    let turn = fed_refusal(*run, c, Job::Project, &lengths, given)?;
    let seen = if turn.held() {
        parts::held_seen(turn, plane, saved)
    } else {
        let handed = Handed { turn, given };
        handed.project(plane, across, down, saved)
    };
    *run = turn.projected(seen);
    Ok(Accepted::Projected {
        clipped: seen.clipped,
        blown: seen.blown,
    })
}

// Start. Rules out: values left over in a buffer, and the levels of one channel taken for every channel's.
pub fn start(run: &mut Run, given: Given, lent: &mut Buffers) -> Result<Accepted, Refusal>
    ensures is { StartIs run.old (levels_in given.entry) given.entry.tables.now (six_of lent.old) result run.new (six_of lent.new) }
    ensures same { SameSix lent.old lent.new }
{
    let legal = start_refusal(*run, &lent.lengths(), given)?;
    parts::start_parts(legal, given, lent);
    *run = legal.cleared();
    Ok(Accepted::Done)
}
