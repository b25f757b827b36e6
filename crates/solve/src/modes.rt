// The runs of a sheet in both modes, and what solve refuses.
ghost use Rattle.std.specs.Prelude.{◌≡◌, not};
ghost use Rattle.contents.specs.Sheets.{channel_at, data_at};
ghost use Rattle.refusal.specs.Refusal.{answer_number};
ghost use Rattle.record.specs.Lent.{levels_in};
ghost use Rattle.solve.specs.Solve.{run_channel, iterations_at, held_in, joint_channels, joint, alone, all_legal, solve_refusal};

use crate::counts::{blend_count, iterations_at};
use contents::{Sheet, Weight, channel_at, chosen, held_after, of_three};
use record::Run;
use record::legal::legal;
use record::lent::Given;
use refusal::Refusal;
use start::coef::Reorder;

// A channel line as a channel of a fresh run, with this data weight, held after this many steps.
fn run_channel(x: contents::Channel, weight: Weight, held: u32) -> record::Channel
    ensures { result ≡ run_channel x weight held }
{
    record::Channel {
        width: x.width,
        height: x.height,
        across: x.across,
        down: x.down,
        weight: f32::from(weight),
        held,
        position: 0,
        mark: false,
        clipped: 0,
    }
}

// The channels of the joint run. Where the sheet's mode is the other, this run is never made, and nothing is held in it.
fn joint_channels(s: Sheet) -> [record::Channel; 3]
    ensures { result ≡ joint_channels s }
{
    let h = s.header;
    let n = h.iterations[0];
    let held = |c: u32| if h.joint { held_after(s, c) } else { n };
    [
        run_channel(s.channels[0], h.data_weights[0], held(0)),
        run_channel(s.channels[1], h.data_weights[1], held(1)),
        run_channel(s.channels[2], h.data_weights[2], held(2)),
    ]
}

// The run of all channels: the first smoothing weight, the first iteration count, and each channel's data weight and held count.
#[tactic(auto, unfolding(crate::specs::Solve::joint))]
pub fn joint_of(s: Sheet) -> Run
    ensures { result ≡ joint s }
{
    let h = s.header;
    Run {
        w: h.width,
        h: h.height,
        n: h.iterations[0],
        smoothing: f32::from(h.smoothing[0]),
        reorder: chosen(s.settings.start, Reorder::Each, Reorder::Once),
        count: h.channels,
        channels: joint_channels(s),
    }
}

// Channel c's line as the channel of its run alone: its own held count, but the first data weight. Nothing is held in it where the sheet's mode is joint.
fn alone_channel(s: Sheet, c: u32) -> record::Channel
    ensures { result ≡ run_channel (channel_at s c) (data_at s.header 0) (held_in (not s.header.joint) s c (iterations_at s c)) }
{
    let h = s.header;
    let held = if h.joint {
        iterations_at(s, c)
    } else {
        held_after(s, c)
    };
    run_channel(channel_at(s, c), h.data_weights[0], held)
}

// The run of channel c alone: its own smoothing weight, iteration count and held count, but the first data weight.
#[tactic(auto, unfolding(crate::specs::Solve::alone))]
pub fn alone_of(s: Sheet, c: u32) -> Run
    ensures { result ≡ alone s c }
{
    let h = s.header;
    let x = alone_channel(s, c);
    let letter = s.settings.start;
    Run {
        w: h.width,
        h: h.height,
        n: iterations_at(s, c),
        smoothing: f32::from(of_three(c, h.smoothing)),
        reorder: chosen(letter, Reorder::Each, Reorder::Once),
        count: 1,
        channels: [x, x, x],
    }
}

// Whether the records of both modes are legal.
pub fn all_legal(s: Sheet) -> bool
    ensures { result ≡ all_legal s }
{
    if !legal(joint_of(s)) {
        return false;
    }
    (0..s.header.channels).all(|c| legal(alone_of(s, c)))
}

// 13, 8, 4, then pair by pair 5 and 14, in this order. `lengths` are those of the six, `totals` is that of the totals.
pub fn solve_refusal(
    s: Sheet,
    lengths: &[usize],
    totals: usize,
    given: Given,
) -> Result<(), Refusal>
    ensures { answer_number result ≡ solve_refusal s (levels_in given.entry) given.entry.tables.now lengths.now totals }
{
    if !all_legal(s) {
        return Err(Refusal::Record);
    }
    if totals != blend_count(s) * 2 {
        return Err(Refusal::Length);
    }
    record::refusals::start_refusal(joint_of(s), lengths, given)?;
    Ok(())
}
