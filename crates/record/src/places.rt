// A channel's part of the lent buffers, and the record with new positions, marks and kept numbers.
ghost use Rattle.std.specs.Prelude.{◌≡◌, map, ℕ, ◌+◌, ◌*◌, ◌/◌, ◌<◌, ◌≤◌, false, get_or, set};
ghost use Rattle.calls.specs.Run.{Place, fresh, place, coefs, levels_before, held};
ghost use Rattle.calls.specs.Calls.{onward, marked};
ghost use Rattle.record.specs.Model.{ChannelIs, sheet_of, place_of, places_of, placed, with_channels, with_place, no_channel, seen_of, clipped_of};

use crate::legal::{LegalRun, Turn};
use crate::{Channel, Run, Seen};

// The number that channel c keeps; 0 for a channel that the record has not.
// Kept: the 0 is the model's: three numbers stand there whatever the count. As an Option the two callers would only make it a 0 again, by `unwrap_or(0)`.
pub fn clipped_of(run: Run, c: u32) -> u32
    requires { c < 3 }
    ensures { result ≡ clipped_of run c }
{
    if c < run.count {
        run.channels[c as usize].clipped
    } else {
        0
    }
}

// Where a channel's values begin and end in a lent buffer, and the step that its next job belongs to.
// Kept: std's `Range` is not Copy, and of the fourteen slices in `parts` that are cut by a span ten would take `span.range.clone()`. A function from a buffer to
// its part would be two, for `&` and `&mut`, and the second would have to say what stays of the buffer around the part that it lends.
#[derive(Clone, Copy)]
pub struct Span {
    pub from: usize,
    pub to: usize,
    pub step: u32,
}

// The coefficients of a channel: w × h of its own sides.
fn coefs_in(x: &Channel) -> usize
    ensures { result ≡ x.now.width * x.now.height }
{
    (x.width as usize) * (x.height as usize)
}

impl Turn {
    // The channel.
    pub fn channel(self) -> Channel
        ensures { ChannelIs self.legal.run self.c result }
    {
        self.legal.run.channels[self.c as usize]
    }

    // Its coefficients, w × h of them.
    pub fn coefs(self) -> usize
        ensures { result ≡ coefs (sheet_of self.legal.run) self.c }
    {
        coefs_in(&self.channel())
    }

    // Where its part of a lent buffer is, and its step.
    pub fn span(self) -> Span
        ensures { (result.from ≡ self.c * (self.legal.run.w * self.legal.run.h))
            × (result.to ≡ self.c * (self.legal.run.w * self.legal.run.h) + self.legal.run.w * self.legal.run.h)
            × (result.step ≡ (place (places_of self.legal.run) self.c).position / 5)
            × (result.to ≤ self.legal.run.count * (self.legal.run.w * self.legal.run.h)) × (result.to ≤ 786432) }
    {
        let n = self.legal.area();
        let from = (self.c as usize) * n;
        let x = self.channel();
        Span {
            from,
            to: from + n,
            step: x.position / 5,
        }
    }

    // Whether it is held in its next job (M-108). Rules out: held one step late, and a position taken for a step.
    pub fn held(self) -> bool
        ensures { result ≡ held (sheet_of self.legal.run) self.c ((place (places_of self.legal.run) self.c).position / 5) }
    {
        let x = self.channel();
        x.held <= x.position / 5
    }

    // The record with the channel, x, at another place.
    fn replaced(self, x: Channel) -> Run
        ensures { (p : Place) → x ≡ with_place (get_or self.legal.run.channels self.c no_channel) p
            → result ≡ placed self.legal.run (set (places_of self.legal.run) self.c p) }
    {
        let mut next = self.legal.run;
        next.channels[self.c as usize] = x;
        next
    }

    // The record after an accepted job of the channel, but for project.
    pub fn advanced(self) -> Run
        ensures { result ≡ placed self.legal.run (set (places_of self.legal.run) self.c (onward (place (places_of self.legal.run) self.c))) }
    {
        self.replaced(onward(self.channel()))
    }

    // The record after an accepted project of the channel.
    pub fn projected(self, seen: Seen) -> Run
        ensures { result ≡ placed self.legal.run (set (places_of self.legal.run) self.c (marked (seen_of seen) (place (places_of self.legal.run) self.c))) }
    {
        self.replaced(marked(self.channel(), seen))
    }
}

// A channel after an accepted job.
fn onward(x: Channel) -> Channel
    requires { x.position < 4294967295 }
    ensures { result ≡ with_place x (onward (place_of x)) }
{
    Channel {
        position: x.position + 1,
        ..x
    }
}

// A channel after an accepted project, which told this of it.
fn marked(x: Channel, seen: Seen) -> Channel
    requires { x.position < 4294967295 }
    ensures { result ≡ with_place x (marked (seen_of seen) (place_of x)) }
{
    Channel {
        position: x.position + 1,
        mark: seen.blown,
        clipped: seen.clipped,
        ..x
    }
}

// A channel of a fresh run: position 0, no mark, nothing clipped.
fn fresh(x: Channel) -> Channel
    ensures { result ≡ with_place x fresh }
{
    Channel {
        position: 0,
        mark: false,
        clipped: 0,
        ..x
    }
}

impl LegalRun {
    // W × H, the values of a channel in a lent buffer.
    pub fn area(self) -> usize
        ensures { result ≡ self.run.w * self.run.h }
    {
        (self.run.w as usize) * (self.run.h as usize)
    }

    // channels × W × H, the values of a lent buffer.
    #[tactic(auto, using(crate::proofs::Sizes::all_small))]
    pub fn total(self) -> usize
        ensures { result ≡ self.run.count * (self.run.w * self.run.h) }
    {
        (self.run.count as usize) * self.area()
    }

    // The place of channel c's first level: those of the channels before it come first.
    pub fn levels_before(self, c: u32) -> usize
        requires { c ≤ self.run.count }
        ensures { result ≡ levels_before (sheet_of self.run) c }
    {
        self.run.channels[..c as usize].iter().map(coefs_in).sum()
    }

    // Whether channel c is held in a step. A channel that the record does not have is not.
    fn held_in(self, c: u32, step: u32) -> bool
        ensures { result ≡ held (sheet_of self.run) c step }
    {
        c < self.run.count && (Turn { legal: self, c }).channel().held <= step
    }

    // Which channels are held in the step of the next blend, which is that of channel 0's position.
    pub fn held_flags(self) -> [bool; 3]
        ensures { (c : ℕ) → get_or result c false ≡ held (sheet_of self.run) c ((place (places_of self.run) 0).position / 5) }
    {
        let step = (Turn { legal: self, c: 0 }).span().step;
        [
            self.held_in(0, step),
            self.held_in(1, step),
            self.held_in(2, step),
        ]
    }

    // The record with every channel moved to its next place.
    fn next_places<F: Fn(Channel) -> Channel>(self, next_place: F) -> Run
        requires { (x : Channel) → x.position < 4294967295 → F.pre next_place x }
        ensures { (g : Place → Place) → ((x y : Channel) → F.post next_place x y → y ≡ with_place x (g (place_of x))) → result ≡ placed self.run (map g (places_of self.run)) }
    {
        let mut channels = self.run.channels;
        for x in channels[..self.run.count as usize].iter_mut() {
            *x = next_place(*x);
        }
        Run {
            channels,
            ..self.run
        }
    }

    // The record after an accepted blend.
    pub fn blended(self) -> Run
        ensures { result ≡ placed self.run (map onward (places_of self.run)) }
    {
        self.next_places(onward)
    }

    // The record of a fresh run.
    pub fn cleared(self) -> Run
        ensures { result ≡ placed self.run (map (λ p. fresh) (places_of self.run)) }
    {
        self.next_places(fresh)
    }
}
