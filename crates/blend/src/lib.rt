// Job 3, blend, as the run calls it: row by row where no channel is held and a row has 1 to 512 values, else pixel by pixel. Both are the same function.
#![tactic(auto)]

ghost use Rattle.std.specs.Prelude.{◌≡◌, ◌<◌, ◌≤◌, length};
ghost use Rattle.gradients.specs.Held.{flag};
ghost use Rattle.gradients.specs.Grid.{Fills};
ghost use Rattle.gradients.specs.Blend.{blended, totals};
ghost use Rattle.rows.specs.Rows.{none};

use gradients::Totals;
use gradients::grid::Grid;
use steps::solve::Constants;

// Kept: this and `gradients::blend`. One function for both would take the two terms as closures over four lent buffers, have these three lines for its body, and say in its contract of each closure where it may be called and what it leaves; here and there a call of eight arguments would stand in the place of the three lines.
// Row by row.
fn by_rows(
    plane: &[f32],
    gradient: &mut [f32],
    across: &mut [f32],
    down: &mut [f32],
    g: Grid,
    k: Constants,
) -> Totals
    requires { (g.n ≤ 3) × (0 < g.w) × (g.w ≤ 512) × Fills g (length plane.now) × Fills g (length gradient.old)
        × Fills g (length across.old) × Fills g (length down.old) }
    ensures { (record { gradient = gradient.new; across = across.new; down = down.new }
        ≡ blended g.w g.h g.n none k.second plane.now
        (record { gradient = gradient.old; across = across.old; down = down.old }))
        × (result ≡ totals g.w g.h g.n none k.second plane.now
        (record { gradient = gradient.old; across = across.old; down = down.old })) }
{
    let tv = tv_rows::tv_gradient(plane, gradient, across, down, g);
    let tgv = tgv_rows::tgv_gradient(&across[..], &down[..], gradient, g, k.second);
    Totals { tv, tgv }
}

// Blend, with the contract of `gradients::blend`.
// Rules out: a held channel read or written in either form, and totals that depend on the form.
pub fn blend(
    plane: &[f32],
    gradient: &mut [f32],
    across: &mut [f32],
    down: &mut [f32],
    g: Grid,
    k: Constants,
) -> Totals
    requires { (g.n ≤ 3) × Fills g (length plane.now) × Fills g (length gradient.old)
        × Fills g (length across.old) × Fills g (length down.old) }
    ensures { (record { gradient = gradient.new; across = across.new; down = down.new }
        ≡ blended g.w g.h g.n (flag g.held) k.second plane.now
        (record { gradient = gradient.old; across = across.old; down = down.old }))
        × (result ≡ totals g.w g.h g.n (flag g.held) k.second plane.now
        (record { gradient = gradient.old; across = across.old; down = down.old })) }
{
    if g.held == [false; 3] && 1 <= g.w && g.w <= 512 {
        by_rows(plane, gradient, across, down, g, k)
    } else {
        gradients::blend(plane, gradient, across, down, g, k)
    }
}
