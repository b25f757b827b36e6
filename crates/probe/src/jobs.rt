// The solver's jobs on lent slices. A channel's own sides and factors are four numbers here.
ghost use Rattle.std.specs.Prelude.{◌≡◌, cond, false, ◌*◌, ◌≤◌, length};
ghost use Rattle.steps.specs.Solve.{constants, pushed};
ghost use Rattle.steps.specs.Step.{moved};
ghost use Rattle.gradients.specs.Blend.{blended, totals};
ghost use Rattle.start.specs.Auxiliary.{aux_init};
ghost use Rattle.projection.specs.Blown.{is_blown};
ghost use Rattle.start.specs.Coef.{Covers, Lent, coef, pairs, reorder_from};
ghost use Rattle.start.specs.AsCoef.{as_coef};
ghost use Rattle.fidelity.specs.DctGradient.{data_gradient};
ghost use Rattle.projection.specs.Projection.{clipped, project_onto_box, transformed};
ghost use Rattle.probe.specs.Jobs.{own, bits_of};

use gradients::grid::Grid;
use start::coef::{Coef, Own, Reorder};
use steps::solve::step_constants;

// A channel's coefficients, of the numbers and slices that three of the functions for C are lent.
fn coef_of<'a>(
    width: usize,
    height: usize,
    fx: usize,
    fy: usize,
    w: usize,
    h: usize,
    lows: &'a [i16],
    highs: &'a [i16],
    table: &'a [u16],
) -> Coef<'a>
    requires { Covers (own width height fx fy) w h × Lent (own width height fx fy) (pairs lows.now highs.now) table.now }
    ensures coef { as_coef result ≡ coef (own width height fx fy) (pairs lows.now highs.now) table.now }
    ensures full { (result.w ≡ w) × (result.h ≡ h) }
{
    Coef {
        own: Own {
            width,
            height,
            horizontal: fx,
            vertical: fy,
        },
        w,
        h,
        lows,
        highs,
        table,
    }
}

// Start of one channel: own sides `width` and `height`, factors fx across and fy down, full sides w and h, and reordered once where `reorder` is 1.
// Kept: a function for C takes numbers and slices alone, so the facts that a `Coef` carries stand here, and in the contracts of probe_data and probe_project.
#[unsafe(no_mangle)]
pub extern "C" fn probe_start(
    plane: &mut [f32],
    prior: &mut [f32],
    gradient: &mut [f32],
    across: &mut [f32],
    down: &mut [f32],
    saved: &mut [f32],
    width: usize,
    height: usize,
    fx: usize,
    fy: usize,
    w: usize,
    h: usize,
    reorder: u32,
    lows: &[i16],
    highs: &[i16],
    table: &[u16],
)
    requires { Covers (own width height fx fy) w h
        × Lent (own width height fx fy) (pairs lows.now highs.now) table.now
        × (length plane.old ≡ w * h) × (length prior.old ≡ w * h) × (length gradient.old ≡ w * h)
        × (length across.old ≡ w * h) × (length down.old ≡ w * h) × (length saved.old ≡ w * h) }
    ensures { record {
      plane = plane.new;
      prior = prior.new;
      gradient = gradient.new;
      across = across.new;
      down = down.new;
      saved = saved.new;
    }
        ≡ aux_init (reorder_from reorder) (coef (own width height fx fy) (pairs lows.now highs.now) table.now) w h }
{
    let coef = coef_of(width, height, fx, fy, w, h, lows, highs, table);
    let order = Reorder::from(reorder);
    start::auxiliary::start(plane, prior, gradient, across, down, saved, &coef, order);
}

// Job 1 of a step, counted from 0, of a run with full sides w and h.
// Kept: a function for C takes numbers and slices alone, so the five numbers that `step_constants` takes are lent one by one, here and to probe_blend and probe_move.
#[unsafe(no_mangle)]
pub extern "C" fn probe_push(
    plane: &mut [f32],
    prior: &mut [f32],
    w: u32,
    h: u32,
    iterations: u32,
    weight: f32,
    step: u32,
)
    requires { (w ≤ 512) × (h ≤ 512) × (length plane.old ≡ length prior.old) }
    ensures { record { plane = plane.new; prior = prior.new }
        ≡ pushed (constants w h iterations weight step).factor (record { plane = plane.old; prior = prior.old }) }
{
    let k = step_constants(w, h, iterations, weight, step);
    steps::solve::push(plane, prior, k);
}

// Job 2 of one channel, of which `weight` is the data weight.
#[unsafe(no_mangle)]
pub extern "C" fn probe_data(
    saved: &[f32],
    gradient: &mut [f32],
    width: usize,
    height: usize,
    fx: usize,
    fy: usize,
    w: usize,
    h: usize,
    weight: f32,
    lows: &[i16],
    highs: &[i16],
    table: &[u16],
)
    requires { Covers (own width height fx fy) w h
        × Lent (own width height fx fy) (pairs lows.now highs.now) table.now
        × (length saved.now ≡ w * h) × (length gradient.old ≡ w * h) }
    ensures { gradient.new
        ≡ data_gradient (coef (own width height fx fy) (pairs lows.now highs.now) table.now)
        w h weight saved.now }
{
    let coef = coef_of(width, height, fx, fy, w, h, lows, highs, table);
    fidelity::dct_gradient::data(saved, gradient, &coef, weight);
}

// Job 3 of a run with n channels. Both totals are written by their bits.
#[unsafe(no_mangle)]
pub extern "C" fn probe_blend(
    plane: &[f32],
    gradient: &mut [f32],
    across: &mut [f32],
    down: &mut [f32],
    n: usize,
    w: u32,
    h: u32,
    iterations: u32,
    weight: f32,
    step: u32,
    both: &mut [u64],
)
    requires { (w ≤ 512) × (h ≤ 512) × (n ≤ 3) × (length plane.now ≡ n * (w * h)) × (length gradient.old ≡ n * (w * h))
        × (length across.old ≡ n * (w * h)) × (length down.old ≡ n * (w * h)) × (length both.old ≡ 2) }
    ensures { (record { gradient = gradient.new; across = across.new; down = down.new }
        ≡ blended w h n (λ c. false) (constants w h iterations weight step).second plane.now
        (record { gradient = gradient.old; across = across.old; down = down.old }))
        × (both.new ≡ bits_of (totals w h n (λ c. false) (constants w h iterations weight step).second plane.now
        (record { gradient = gradient.old; across = across.old; down = down.old }))) }
{
    let k = step_constants(w, h, iterations, weight, step);
    let none = [false; 3];
    let g = Grid {
        n: n,
        w: w as usize,
        h: h as usize,
        held: none,
    };
    let t = blend::blend(plane, gradient, across, down, g, k);
    both[0] = float::double::to_bits(t.tv);
    both[1] = float::double::to_bits(t.tgv);
}

// Job 4 of one channel.
#[unsafe(no_mangle)]
pub extern "C" fn probe_move(
    plane: &mut [f32],
    gradient: &[f32],
    w: u32,
    h: u32,
    iterations: u32,
    weight: f32,
    step: u32,
)
    requires { (w ≤ 512) × (h ≤ 512) × (length plane.old ≡ length gradient.now) }
    ensures { plane.new ≡ moved (constants w h iterations weight step).step_size gradient.now plane.old }
{
    let k = step_constants(w, h, iterations, weight, step);
    steps::step::move_plane(plane, gradient, k);
}

// Job 5 of one channel, without the test for the mark. Gives how many coefficients it clipped.
#[unsafe(no_mangle)]
pub extern "C" fn probe_project(
    plane: &mut [f32],
    across: &mut [f32],
    down: &mut [f32],
    saved: &mut [f32],
    width: usize,
    height: usize,
    fx: usize,
    fy: usize,
    w: usize,
    h: usize,
    lows: &[i16],
    highs: &[i16],
    table: &[u16],
) -> usize
    requires { Covers (own width height fx fy) w h
        × Lent (own width height fx fy) (pairs lows.now highs.now) table.now
        × (length plane.old ≡ w * h) × (length across.old ≡ w * h) × (length down.old ≡ w * h) × (length saved.old ≡ w * h) }
    ensures { (record { plane = plane.new; across = across.new; down = down.new; saved = saved.new }
        ≡ project_onto_box (coef (own width height fx fy) (pairs lows.now highs.now) table.now) w h
        (record { plane = plane.old; across = across.old; down = down.old; saved = saved.old }))
        × (result ≡ clipped (coef (own width height fx fy) (pairs lows.now highs.now) table.now)
        (transformed (coef (own width height fx fy) (pairs lows.now highs.now) table.now) w h
        (record { plane = plane.old; across = across.old; down = down.old; saved = saved.old }))) }
{
    let coef = coef_of(width, height, fx, fy, w, h, lows, highs, table);
    projection::projection::project_onto_box(plane, across, down, saved, &coef)
}

// The condition of job 5, of the plane and the n saved coefficients: 1 where it holds, 0 where not.
#[tactic(auto, unfolding(projection::specs::Blown::is_blown))]
#[unsafe(no_mangle)]
pub extern "C" fn probe_blown(plane: &[f32], saved: &[f32], n: usize) -> u32
    requires { n ≤ length saved.now }
    ensures { result ≡ cond (is_blown n plane.now saved.now) 1 0 }
{
    u32::from(projection::blown::is_blown(plane, &saved[..n]))
}
