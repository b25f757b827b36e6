// What a job of one channel is handed, its own sides and its part of the levels, tables and buffers; and the jobs on that part: data, project, start. Internal: each asks
// what the public calls of `run` have tested.
#![tactic(auto)]

ghost use Rattle.std.specs.Prelude.{◌≡◌, ◌+◌, ◌*◌, ◌<◌, length};
ghost use Rattle.fold.specs.Fold.{upto};
ghost use Rattle.fold.specs.Part.{part};
ghost use Rattle.calls.specs.Run.{own, place, coefs, levels_before};
ghost use Rattle.calls.specs.Buffers.{part_of};
ghost use Rattle.projection.specs.Blown.{is_blown};
ghost use Rattle.record.specs.Lent.{levels_in, six_of, SameSix};
ghost use Rattle.record.specs.Model.{sheet_of, places_of, given_of};
ghost use Rattle.parts.specs.Parts.{Fed, FedAll, Whole, SixWhole, started_part};

use record::legal::{LegalRun, Turn};
use record::lent::{Buffers, Given};
use record::{Run, Seen};
use start::coef::{Coef, Own};

// The own sides and the factors of the turn's channel.
// Rules out: those of another channel; a width in the height's place.
pub fn own_of(turn: Turn) -> Own
    ensures { result ≡ record {
      width = (own (sheet_of turn.legal.run) turn.c).width;
      height = (own (sheet_of turn.legal.run) turn.c).height;
      horizontal = (own (sheet_of turn.legal.run) turn.c).across;
      vertical = (own (sheet_of turn.legal.run) turn.c).down;
    } }
{
    let x = turn.channel();
    Own {
        width: x.width as usize,
        height: x.height as usize,
        horizontal: x.across as usize,
        vertical: x.down as usize,
    }
}

// The data weight of the turn's channel. Rules out: that of another channel; the smoothing weight.
pub fn weight_of(turn: Turn) -> f32
    ensures { result ≡ (own (sheet_of turn.legal.run) turn.c).data_weight }
{
    turn.channel().weight
}

// The lows or the highs of the turn's channel, of those of all channels.
// Rules out: the first channel's for each; one level more or less than the channel has.
pub fn levels_of(turn: Turn, values: &[i16]) -> &[i16]
    requires { length values.now ≡ levels_before (sheet_of turn.legal.run) turn.legal.run.count }
    ensures { result.now ≡ part values.now (levels_before (sheet_of turn.legal.run) turn.c)
        (levels_before (sheet_of turn.legal.run) turn.c + coefs (sheet_of turn.legal.run) turn.c) }
{
    let from = turn.legal.levels_before(turn.c);
    let to = from + turn.coefs();
    &values[from..to]
}

// Channel c's quantisers, of those of all channels of a record.
// Rules out: the first channel's for each; one quantiser more or less than 64.
pub fn table_of(run: Run, c: u32, tables: &[u16]) -> &[u16]
    requires { (c < run.count) × (length tables.now ≡ run.count * 64) }
    ensures { result.now ≡ part tables.now (c * 64) (c * 64 + 64) }
{
    let from = (c as usize) * 64;
    &tables[from..from + 64]
}

// What a job of one channel is handed: the channel's turn, and the levels and tables of all channels.
#[derive(Clone, Copy)]
pub struct Handed<'a> {
    pub turn: Turn,
    pub given: Given<'a>,
    pub ghost fed: { Fed turn.legal.run turn.c (levels_in given) given.tables.now },
}

impl<'a> Handed<'a> {
    ghost use Rattle.start.specs.AsCoef.{as_coef};
    ghost use Rattle.calls.specs.Run.{own};
    ghost use Rattle.demand.specs.Solver.{coef_of};
    ghost use Rattle.parts.specs.Parts.{fitted_part, projected_part, blown_part, clipped_part};
    ghost use Rattle.parts.specs.Handed.{given_in};

    // The channel's own sides and its factors.
    pub fn own(&self) -> Own
        ensures { result ≡ record {
          width = (own (given_in self.now).sheet self.now.turn.c).width;
          height = (own (given_in self.now).sheet self.now.turn.c).height;
          horizontal = (own (given_in self.now).sheet self.now.turn.c).across;
          vertical = (own (given_in self.now).sheet self.now.turn.c).down;
        } }
    {
        own_of(self.turn)
    }

    pub fn weight(&self) -> f32
        ensures { result ≡ (own (given_in self.now).sheet self.now.turn.c).data_weight }
    {
        weight_of(self.turn)
    }

    // The channel's lows or highs, of those of all channels.
    pub fn levels(&self, values: &'a [i16]) -> &'a [i16]
        requires { length values.now ≡ levels_before (given_in self.now).sheet self.now.turn.legal.run.count }
        ensures { result.now ≡ part values.now (levels_before (given_in self.now).sheet self.now.turn.c)
            (levels_before (given_in self.now).sheet self.now.turn.c + coefs (given_in self.now).sheet self.now.turn.c) }
    {
        levels_of(self.turn, values)
    }

    pub fn table(&self) -> &'a [u16]
        ensures { result.now ≡ part self.now.given.tables.now (self.now.turn.c * 64) (self.now.turn.c * 64 + 64) }
    {
        table_of(self.turn.legal.run, self.turn.c, self.given.tables)
    }

    // What the solver is handed of the channel: its own sides and factors, and its part of the levels and the tables.
    // Rules out: the lows in the highs' place, and another channel's levels or table.
    pub fn coef(&self) -> Coef<'a>
        ensures { (as_coef result ≡ coef_of (given_in self.now) self.now.turn.c) × (result.w ≡ self.now.turn.legal.run.w) × (result.h ≡ self.now.turn.legal.run.h) }
    {
        Coef {
            own: self.own(),
            w: self.turn.legal.run.w as usize,
            h: self.turn.legal.run.h as usize,
            lows: self.levels(self.given.lows),
            highs: self.levels(self.given.highs),
            table: self.table(),
        }
    }

    // Job 2 on the channel's part.
    pub fn data(&self, gradient: &mut [f32], saved: &[f32])
        requires { Whole self.now.turn.legal.run gradient.old × Whole self.now.turn.legal.run saved.now }
        ensures { gradient.new ≡ fitted_part (given_in self.now) self.now.turn.c gradient.old saved.now }
    {
        let s = self.turn.span();
        fidelity::dct_gradient::data(
            &saved[s.from..s.to],
            &mut gradient[s.from..s.to],
            &self.coef(),
            self.weight(),
        );
    }

    // Job 5 on the channel's part, and what it tells of the channel.
    pub fn project(
        &self,
        plane: &mut [f32],
        across: &mut [f32],
        down: &mut [f32],
        saved: &mut [f32],
    ) -> Seen
        requires { Whole self.now.turn.legal.run plane.old × Whole self.now.turn.legal.run across.old × Whole self.now.turn.legal.run down.old × Whole self.now.turn.legal.run saved.old }
        ensures { (record { plane = plane.new; across = across.new; down = down.new; saved = saved.new }
            ≡ projected_part (given_in self.now) self.now.turn.c
            (record { plane = plane.old; across = across.old; down = down.old; saved = saved.old }))
            × (result.blown ≡ blown_part (given_in self.now) self.now.turn.c
            (record { plane = plane.old; across = across.old; down = down.old; saved = saved.old }))
            × (result.clipped ≡ clipped_part (given_in self.now) self.now.turn.c
            (record { plane = plane.old; across = across.old; down = down.old; saved = saved.old })) }
    {
        let s = self.turn.span();
        let clipped = projection::projection::project_onto_box(
            &mut plane[s.from..s.to],
            &mut across[s.from..s.to],
            &mut down[s.from..s.to],
            &mut saved[s.from..s.to],
            &self.coef(),
        );
        Seen {
            blown: blown_part(self.turn, plane, saved),
            clipped: clipped as u32,
        }
    }

    // Start of the channel: its part of each of the six.
    pub fn start(&self, lent: &mut Buffers)
        requires { SixWhole self.now.turn.legal.run (six_of lent.old) }
        ensures started { six_of lent.new ≡ started_part (given_in self.now) self.now.turn.c (six_of lent.old) }
        ensures same { SameSix lent.old lent.new }
    {
        let s = self.turn.span();
        start::auxiliary::start(
            &mut lent.plane[s.from..s.to],
            &mut lent.prior[s.from..s.to],
            &mut lent.gradient[s.from..s.to],
            &mut lent.across[s.from..s.to],
            &mut lent.down[s.from..s.to],
            &mut lent.saved[s.from..s.to],
            &self.coef(),
            self.turn.legal.run.reorder,
        );
    }
}

// Whether a channel is blown: a value of its plane or a saved coefficient is NaN or infinite.
#[tactic(auto, unfolding(projection::specs::Blown::is_blown))]
pub fn blown_part(turn: Turn, plane: &[f32], saved: &[f32]) -> bool
    requires { Whole turn.legal.run plane.now × Whole turn.legal.run saved.now }
    ensures { result ≡ is_blown (coefs (sheet_of turn.legal.run) turn.c) (part_of (turn.legal.run.w * turn.legal.run.h) turn.c plane.now)
        (part_of (turn.legal.run.w * turn.legal.run.h) turn.c saved.now) }
{
    let s = turn.span();
    let saved = &saved[s.from..s.to];
    projection::blown::is_blown(&plane[s.from..s.to], &saved[..turn.coefs()])
}

// What job 5 tells of a held channel, whose values stay (M-108): the test for the mark, and the number kept before.
// Rules out: a number counted anew, and a channel that is blown told as one that isn't.
pub fn held_seen(turn: Turn, plane: &[f32], saved: &[f32]) -> Seen
    requires { Whole turn.legal.run plane.now × Whole turn.legal.run saved.now }
    ensures { (result.blown ≡ is_blown (coefs (sheet_of turn.legal.run) turn.c) (part_of (turn.legal.run.w * turn.legal.run.h) turn.c plane.now)
        (part_of (turn.legal.run.w * turn.legal.run.h) turn.c saved.now))
        × (result.clipped ≡ (place (places_of turn.legal.run) turn.c).clipped) }
{
    Seen {
        blown: blown_part(turn, plane, saved),
        clipped: turn.channel().clipped,
    }
}

// Start of every channel, one after the other.
pub fn start_parts(legal: LegalRun, given: Given, lent: &mut Buffers)
    requires { FedAll legal.run (levels_in given) given.tables.now × SixWhole legal.run (six_of lent.old) }
    ensures started { six_of lent.new ≡ upto (started_part (given_of legal.run (levels_in given.entry) given.entry.tables.now)) legal.run.count (six_of lent.old) }
    ensures same { SameSix lent.old lent.new }
{
    for c in 0..legal.run.count {
        let turn = Turn { legal, c };
        let handed = Handed { turn, given };
        handed.start(lent);
    }
}
