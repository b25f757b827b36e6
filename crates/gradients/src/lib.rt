// The gradients of tv.rs and tgv.rs over all channels of a run, and blend, which is both.
#![tactic(auto)]

pub mod grid;
pub mod tgv;
pub mod tv;

ghost use Rattle.std.specs.Prelude.{◌≡◌, ◌*◌, ◌≤◌, Bool, Float, List, length, ℕ};
ghost use Rattle.gradients.specs.Apart.{Alike, AllAlike, NotRead, NotWritten};
ghost use Rattle.gradients.specs.Held.{flag};
ghost use Rattle.gradients.specs.Grid.{Fills};
ghost use Rattle.gradients.specs.Blend.{blended, totals};
ghost use Rattle.gradients.specs.Tv.{Terms};

use grid::Grid;
use steps::solve::Constants;

// What tv_gradient and tgv_gradient return.
#[derive(Clone, Copy)]
pub struct Totals {
    pub tv: f64,
    pub tgv: f64,
}

// Job 3: the first-order term, then the second-order term, on the buffers of all channels. The plane is only read.
// Returned are the totals of both.
// Rules out: the second-order term of the differences before this step's, the divisor √n left out, and a held channel read or written.
pub fn blend(
    plane: &[f32],
    gradient: &mut [f32],
    across: &mut [f32],
    down: &mut [f32],
    g: Grid,
    k: Constants,
) -> Totals
    requires { (g.n ≤ 3) × Fills g (length plane.now) × Fills g (length gradient.old)
        × Fills g (length across.old) × Fills g (length down.old) }
    ensures { (record { gradient = gradient.new; across = across.new; down = down.new }
        ≡ blended g.w g.h g.n (flag g.held) k.second plane.now
        (record { gradient = gradient.old; across = across.old; down = down.old }))
        × (result ≡ totals g.w g.h g.n (flag g.held) k.second plane.now
        (record { gradient = gradient.old; across = across.old; down = down.old })) }
{
    let tv = tv::tv_gradient(plane, gradient, across, down, g);
    let tgv = tgv::tgv_gradient(&across[..], &down[..], gradient, g, k.second);
    Totals { tv, tgv }
}

/// Blend writes nothing of a held channel, and what it writes and returns does not depend on that
/// channel's values.
pub fn held_law()
    ensures written { (W H n : ℕ) (held : ℕ → Bool) (second : Float) (plane : List Float)
        (b : Terms) → NotWritten W H n held second plane b }
    ensures read { (W H n : ℕ) (held : ℕ → Bool) (second : Float) (p q : List Float) (a b : Terms)
        → Alike (W * H) held p q → AllAlike (W * H) held a b → NotRead W H n held second p q a b }
{}
