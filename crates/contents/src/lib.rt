// A sheet but for its text: the types that reading gives and solving takes.
#![tactic(auto)]

ghost use Rattle.std.specs.Prelude.{◌≡◌, ◌<◌, ◌≤◌, ℕ, true};
ghost use Rattle.contents.specs.Weights.{value_of, plain};
ghost use Rattle.contents.specs.Legal.{LegalWeight};
ghost use Rattle.contents.specs.Three.{three_at};
ghost use Rattle.contents.specs.Letters.{chosen, letter_from, reader_from};
ghost use Rattle.contents.specs.Hold.{measured, hold_at, LegalHold};
ghost use Rattle.contents.specs.Sheets.{no_weight, channel_at, channels_of};
ghost use Rattle.contents.specs.Marks.{blocks_in, blocks_before, block_of, has_block};

use std::num::f32_from_bits_with_nan;

// A weight: the bits of an f32, or a whole number.
#[derive(Clone, Copy, Debug, PartialEq, Eq)]
pub enum Weight {
    Bits(u32),
    Whole(u8),
}

// The whole number 0. Ruled out: the bits of 0; the whole number 1.
impl Default for Weight {
    ghost is_default = { λ w. w ≡ no_weight };

    fn default() -> Weight {
        Weight::Whole(0)
    }
}

// The weight as an f32: by its bits, or the whole number exactly. Bits that no legal weight has count too; all NaNs are one.
// Ruled out: the bits 1 of a whole weight 1; another sign of zero for w0.
impl From<Weight> for f32 {
    ghost from_gives = { λ w r. r ≡ value_of w };

    #[tactic(auto, unfolding(crate::specs::Weights::value_of))]
    fn from(w: Weight) -> f32 {
        match w {
            Weight::Bits(b) => f32_from_bits_with_nan(b),
            Weight::Whole(n) => f32::from(n),
        }
    }
}

// What a caller allows: the largest full side and the most iterations.
#[derive(Clone, Copy, Debug, PartialEq, Eq)]
pub struct Limits {
    pub side: u32,
    pub iterations: u32,
}

// A header line: full sides, picture sides, channels, mode, and three each of iterations, smoothing and data weights.
#[derive(Clone, Copy, Debug, Default, PartialEq, Eq)]
pub struct Header {
    pub width: u32,
    pub height: u32,
    pub picture_width: u32,
    pub picture_height: u32,
    pub channels: u32,
    // Kept: it is the mode itself, j or s, and each use asks whether it is j; an enum of the two would make each a comparison with one of them.
    pub joint: bool,
    pub iterations: [u32; 3],
    pub smoothing: [Weight; 3],
    pub data_weights: [Weight; 3],
}

// A channel line but for its quantisers: own sides and factors.
#[derive(Clone, Copy, Debug, Default, PartialEq, Eq)]
pub struct Channel {
    pub width: u32,
    pub height: u32,
    pub across: u32,
    pub down: u32,
}

// The first or the second of the two letters that a setting's line may have.
// Kept: ordinals, since `from`, `chosen`, `lines::letter_in` and `seam::same_letters` treat F's t and n as they treat A's m and o; with an enum for each setting there would be two of each of these.
// Their meanings have names where `chosen` chooses: `Rounding` of `picture`, `Reorder` of `start`.
#[derive(Clone, Copy, Debug, PartialEq, Eq)]
pub enum Letter {
    First,
    Second,
}

// By number: 1 is the second letter, every other number the first.
// Kept: no `TryFrom`, since `by_numbers::sheets::sheet_of` makes a sheet of any numbers and refuses none: it would need a letter for the refused ones, which is this one.
impl From<u32> for Letter {
    ghost from_gives = { λ n r. r ≡ letter_from n };

    // Kept: two arms each; a trait or a macro over the enums of two would be longer than the impls.
    fn from(n: u32) -> Letter {
        if n == 1 {
            Letter::Second
        } else {
            Letter::First
        }
    }
}

// The settings, each where a line says it: F, the rounding, t or n; A, the start, m or o; H, after how many steps each of three channels is held.
#[derive(Clone, Copy, Debug, Default, PartialEq, Eq)]
pub struct Settings {
    pub rounding: Option<Letter>,
    pub start: Option<Letter>,
    pub hold: Option<[u32; 3]>,
}

// A mark of line N: the channel, block row and block column, from 0, of a block of which a partner may see only the mean.
#[derive(Clone, Copy, Debug, PartialEq, Eq)]
pub struct Mark {
    pub channel: u32,
    pub row: u32,
    pub column: u32,
}

// Who reads a sheet.
#[derive(Clone, Copy, Debug, PartialEq, Eq)]
pub enum Reader {
    Staff,
    Partner,
}

// By number: 1 is a partner, every other number staff.
// Kept: no `TryFrom`, which would refuse numbers above 1; a public function that couldn't fail still can't, by a rule of the project. C's call refuses them before, as 2 at line 0.
impl From<u32> for Reader {
    ghost from_gives = { λ n r. r ≡ reader_from n };

    // Kept: as that of `Letter`.
    fn from(n: u32) -> Reader {
        if n == 1 {
            Reader::Partner
        } else {
            Reader::Staff
        }
    }
}

// A sheet but for its levels and quantisers. With one channel the second and third are zero.
// Kept: three channels, and in the header their count: there is no heap; `in_use` gives those in use.
#[derive(Clone, Copy, Debug, PartialEq, Eq)]
pub struct Sheet {
    pub header: Header,
    pub settings: Settings,
    pub channels: [Channel; 3],
}

impl Sheet {
    // The lines of the channels in use. Ruled out: three lines for a sheet of one channel; the last channels in the place of the first.
    pub fn in_use(&self) -> &[Channel]
        ensures { result.now ≡ channels_of self.now }
    {
        let n = self.header.channels as usize;
        &self.channels[..n.min(3)]
    }
}

// The one of three values at the place c; every number above 1 is the third place.
// Ruled out: the second for place 0; the first for the numbers above 2.
pub fn of_three<T: Copy>(c: u32, values: [T; 3]) -> T
    ensures { (none : T) → result ≡ three_at none c values }
{
    values[c.min(2) as usize]
}

// By a setting's letter the first or the second value.
// Ruled out: the second where no line says the setting; the first for the second letter.
pub fn chosen<T: Copy>(setting: Option<Letter>, first: T, second: T) -> T
    ensures { result ≡ chosen setting first second }
{
    match setting {
        None | Some(Letter::First) => first,
        Some(Letter::Second) => second,
    }
}

// The iteration count that a channel's held count is measured against. Ruled out: the second count of a sheet of three channels in joint mode; the
// first count for each channel of a separate sheet.
pub fn measured_by(h: Header, c: u32) -> u32
    ensures { result ≡ measured h c }
{
    if h.channels == 3 && h.joint {
        h.iterations[0]
    } else {
        of_three(c, h.iterations)
    }
}

// After how many steps channel c is held; every number above 1 is the third channel. Ruled out: 0 where no line says it; the count of another channel.
pub fn held_after(s: Sheet, c: u32) -> u32
    ensures { result ≡ hold_at s c }
{
    match s.settings.hold {
        None => measured_by(s.header, c),
        Some(counts) => of_three(c, counts),
    }
}

// Channel c's line; every number above 1 is the third channel.
pub fn channel_at(s: Sheet, c: u32) -> Channel
    ensures { result ≡ channel_at s c }
{
    of_three(c, s.channels)
}

// How many blocks a channel has. The product of two u32 fits 64 bits.
fn blocks_in(c: Channel) -> u64
    ensures { (result ≡ blocks_in c) × (result < 288230376151711744) }
{
    u64::from(c.width) * u64::from(c.height) / 64
}

// How many blocks the channels before channel c have.
// Kept: for every number c, and with a bound; `s.channels[..c.min(2) as usize].iter().map(blocks_in).sum()` asks beforehand that the sum fits, and its contract tells no bound.
fn blocks_before(s: Sheet, c: u32) -> u64
    ensures { (result ≡ blocks_before s c) × (result < 576460752303423488) }
{
    match c {
        0 => 0,
        1 => blocks_in(s.channels[0]),
        _ => blocks_in(s.channels[0]) + blocks_in(s.channels[1]),
    }
}

// The number of a mark's block in the order of the text. Ruled out: a channel's blocks counted from 0; columns before rows.
pub fn block_of(s: Sheet, m: Mark) -> u64
    ensures { result ≡ block_of s m }
{
    let across = channel_at(s, m.channel).width / 8;
    blocks_before(s, m.channel) + u64::from(m.row) * u64::from(across) + u64::from(m.column)
}

// Does the sheet have a mark's block? Ruled out: a block of a channel that the sheet has not; the row as many rows down as there are rows.
pub fn has_block(s: Sheet, m: Mark) -> bool
    ensures { result ≡ has_block s m }
{
    let c = channel_at(s, m.channel);
    m.channel < s.header.channels && m.row < c.height / 8 && m.column < c.width / 8
}

/// A legal weight is worth a finite number with no sign bit.
// Rules out: a weight of NaN, of an infinity or of -0.
pub fn weights_law()
    ensures { (w : Weight) → LegalWeight w → plain (value_of w) ≡ true }
{}

/// No channel is held after more steps than it has.
// Rules out: a held count above the iteration count that it is measured against.
pub fn holds_law()
    ensures { (s : Sheet) → LegalHold s.header s.settings.hold → (c : ℕ) →
        hold_at s c ≤ measured s.header c }
{}
