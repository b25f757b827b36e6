// Legal records: refusal 13 is for any other.
ghost use Rattle.std.specs.Prelude.{◌≡◌, ◌&&◌, ◌<◌, ◌≤◌, eqb};
ghost use Rattle.calls.specs.Run.{legal, side, full_side, factor, weight, own_ok, kept_ok, place_ok, header_ok, every, blends_in};
ghost use Rattle.record.specs.Model.{Legal, own_of, place_of, sheet_of, places_of, channel_ok};

use crate::{Channel, Run};

// A multiple of 8, at least 8.
fn side_ok(x: u32) -> bool
    ensures { result ≡ side x }
{
    x % 8 == 0 && 8 <= x
}

// A multiple of 8, 8 to 512.
// Kept: `picture` has this one line too, and `text::field::is_side` it for any most. Below all three stands `refusal` alone, which is of other things, and a crate for the one function, with its
// definition and its proofs, would be longer than both.
fn full_side_ok(x: u32) -> bool
    ensures { result ≡ full_side x }
{
    side_ok(x) && x <= 512
}

fn factor_ok(x: u32) -> bool
    ensures { result ≡ factor x }
{
    1 <= x && x <= 4
}

// No sign bit, not infinite, no NaN.
#[tactic(auto, using(crate::proofs::Weights::finite_weight, crate::proofs::Weights::no_weight))]
fn weight_ok(x: f32) -> bool
    ensures { result ≡ weight x }
{
    x.is_finite() && x.is_sign_positive()
}

// A channel's own numbers: its sides, factors, cover, data weight and held count.
#[tactic(auto, unfolding(calls::specs::Run::own_ok))]
fn own_ok(run: Run, x: Channel) -> bool
    ensures { result ≡ own_ok (sheet_of run) (own_of x) }
{
    side_ok(x.width)
        & side_ok(x.height)
        & factor_ok(x.across)
        & factor_ok(x.down)
        & (u64::from(x.width) * u64::from(x.across) <= u64::from(run.w))
        & (u64::from(x.height) * u64::from(x.down) <= u64::from(run.h))
        & weight_ok(x.weight)
        & (x.held <= run.n)
}

// A kept number of at most w × h, and 0 before the first project has ended, at position 5.
fn kept_ok(x: Channel) -> bool
    ensures { result ≡ kept_ok (own_of x) (place_of x) }
{
    u64::from(x.clipped) <= u64::from(x.width) * u64::from(x.height)
        && (5 <= x.position || x.clipped == 0)
}

// A position from 0 to 5N, a mark only at a positive multiple of 5, and a kept number that may be.
#[tactic(auto, unfolding(calls::specs::Run::place_ok))]
fn place_ok(run: Run, x: Channel) -> bool
    ensures { result ≡ place_ok (sheet_of run) (own_of x) (place_of x) }
{
    (u64::from(x.position) <= 5 * u64::from(run.n))
        & (!x.mark | (0 < x.position) & (x.position % 5 == 0))
        & kept_ok(x)
}

// Blends among the first `position` jobs of a channel.
fn blends(position: u32) -> u64
    ensures { result ≡ blends_in position }
{
    (u64::from(position) + 2) / 5
}

fn header_ok(run: Run) -> bool
    ensures { result ≡ header_ok (sheet_of run) }
{
    full_side_ok(run.w)
        & full_side_ok(run.h)
        & (run.n <= 1000)
        & weight_ok(run.smoothing)
        & ((run.count == 1) | (run.count == 3))
}

// A channel of the record; `first` are the blends of the first channel.
fn channel_ok(run: Run, first: u64, x: Channel) -> bool
    ensures { result ≡ (own_ok (sheet_of run) (own_of x) && place_ok (sheet_of run) (own_of x) (place_of x) && eqb (blends_in x.position) first) }
{
    own_ok(run, x) && place_ok(run, x) && blends(x.position) == first
}

// Every channel's own numbers and place, and as many blends as the first channel has had.
fn channels_ok(run: Run) -> bool
    requires { run.count ≤ 3 }
    ensures { result ≡ every run.count (channel_ok (sheet_of run) (places_of run)) }
{
    let first = blends(run.channels[0].position);
    run.channels().iter().all(|&x| channel_ok(run, first, x))
}

// Whether the record is legal, by the rules of document 01.
// This rules out a record accepted with a position past 5N, a kept number above w × h or a held count above N, and one refused for a mark at a positive multiple of 5.
pub fn legal(run: Run) -> bool
    ensures { result ≡ legal (sheet_of run) (places_of run) }
{
    header_ok(run) && channels_ok(run)
}

// A legal record: what every call goes on, once it has looked at the record.
#[derive(Clone, Copy)]
pub struct LegalRun {
    pub run: Run,
    pub ghost holds: { Legal run },
}

// A legal record and the number of one of its channels: what a job of one channel goes on.
#[derive(Clone, Copy)]
pub struct Turn {
    pub legal: LegalRun,
    pub c: u32,
    pub ghost below: { c < legal.run.count },
}
