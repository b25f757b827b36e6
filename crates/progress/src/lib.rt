// What was read so far, and what the next line adds to it.
#![tactic(auto)]

ghost use Rattle.std.specs.Prelude.{◌≡◌, false, ◌<◌};
ghost use Rattle.progress.specs.Taking.{Due, twice_in, marked_in};
ghost use Rattle.text.specs.Pieces.{split};
ghost use Rattle.progress.specs.Progress.{exists, blank, headed, placed, due_tag, may_come, is_own, line_tag, with_setting, taken_if};
ghost use Rattle.lines.specs.Lines.{letter_of};

use contents::{Channel, Header, Mark, Settings, Sheet, block_of, has_block};
use lines::{Record, Setting, Tag};
use refusal::Refusal;
use text::field;

// The sheet so far: whether the header was read, how many channels were, and how many blocks of the last are still to come.
#[derive(Clone, Copy, Debug, PartialEq, Eq)]
pub struct State {
    // Kept: `lines::rule_at` takes a header for the first line too, so that a header of zeros stands beside an Option of the rest as well; and with that Option a setting, a channel,
    // a block and a mark would each open what is always there.
    pub begun: bool,
    pub sheet: Sheet,
    pub read: u32,
    pub left: u64,
}

// A header with no channel read yet.
fn no_channels(header: Header) -> Sheet
    ensures { result ≡ headed header }
{
    Sheet {
        header,
        settings: Settings::default(),
        channels: [Channel::default(); 3],
    }
}

// Nothing read yet.
#[tactic(auto, unfolding(crate::specs::Progress::blank))]
pub fn nothing() -> State
    ensures { result ≡ blank }
{
    State {
        begun: false,
        sheet: no_channels(Header::default()),
        read: 0,
        left: 0,
    }
}

// The tag that is due.
fn due(s: State) -> Tag
    ensures { letter_of result ≡ due_tag s }
{
    if !s.begun {
        Tag::Header
    } else if 0 < s.left {
        Tag::Block
    } else if s.read < s.sheet.header.channels {
        Tag::Channel
    } else {
        Tag::End
    }
}

// May a line of this tag stand here, where another may be due? No setting follows itself or a later one.
fn may_stand(s: State, tag: Tag) -> bool
    ensures { result ≡ may_come s tag }
{
    let said = s.sheet.settings;
    let opened = s.begun && s.read == 0;
    match tag {
        Tag::Rounding => {
            opened && said.rounding.is_none() && said.start.is_none() && said.hold.is_none()
        }
        Tag::Start => opened && said.start.is_none() && said.hold.is_none(),
        Tag::Hold => opened && said.hold.is_none(),
        Tag::Range => s.begun && 0 < s.left,
        Tag::Mark => due(s) == Tag::End,
        Tag::Header | Tag::Channel | Tag::Block | Tag::End => false,
    }
}

// Is this a line of this tag, and may it stand here?
fn is_own(s: State, row: &[u8], tag: Tag) -> bool
    ensures { result ≡ is_own s (split 9 row.now) tag }
{
    field::letter_at(row, 0, tag.letter()) && may_stand(s, tag)
}

// The tags of lines that may stand where another is due, in the order in which they are looked for.
const OWN: [Tag; 5] = [Tag::Rounding, Tag::Start, Tag::Hold, Tag::Range, Tag::Mark];

// The tag that the next line is read by: its own where it may stand here, else the due one.
pub fn expected(s: State, row: &[u8]) -> Tag
    ensures { letter_of result ≡ line_tag s (split 9 row.now) }
{
    let own = OWN.iter().find(|tag| is_own(s, row, **tag));
    match own {
        Some(tag) => *tag,
        None => due(s),
    }
}

// One more setting.
fn set_one(settings: Settings, x: Setting) -> Settings
    ensures { result ≡ with_setting settings x }
{
    match x {
        Setting::Rounding(letter) => Settings {
            rounding: Some(letter),
            ..settings
        },
        Setting::Start(letter) => Settings {
            start: Some(letter),
            ..settings
        },
        Setting::Hold(counts) => Settings {
            hold: Some(counts),
            ..settings
        },
    }
}

// A channel's line at its place.
fn place(sheet: Sheet, j: u32, c: Channel) -> Sheet
    ensures { result ≡ placed sheet j c }
{
    let mut channels = sheet.channels;
    if j < 3 {
        channels[j as usize] = c;
    }
    Sheet { channels, ..sheet }
}

// The next channel's line. Blocks and cover are products of 64 bits, which hold every product of two u32.
#[tactic(auto, unfolding(crate::specs::Progress::taken_if))]
fn take_channel(s: State, c: Channel) -> Result<State, Refusal>
    requires { s.read < s.sheet.header.channels }
    ensures { result ≡ taken_if s false (Record.Channel c) }
{
    let h = s.sheet.header;
    let width = u64::from(c.width);
    let height = u64::from(c.height);
    if u64::from(h.width) < width * u64::from(c.across)
        || u64::from(h.height) < height * u64::from(c.down)
    {
        return Err(Refusal::Size);
    }
    Ok(State {
        begun: true,
        sheet: place(s.sheet, s.read, c),
        read: s.read + 1,
        left: width * height / 64,
    })
}

// Is a mark's block one of the sheet?
#[tactic(auto, unfolding(crate::specs::Progress::exists))]
fn is_block(s: Sheet, m: Mark) -> bool
    ensures { result ≡ exists s m }
{
    has_block(s, m) && block_of(s, m) < 12288
}

// A mark, whose block is one of the sheet and wasn't marked before. The block is marked in the map of all blocks.
#[tactic(auto, unfolding(crate::specs::Progress::taken_if), using(crate::proofs::StateLaws::exists_within))]
fn take_mark(s: State, m: Mark, bits: &mut [bool; 12288]) -> Result<State, Refusal>
    ensures state { result ≡ taken_if s (twice_in s.sheet (Record.Mark m) bits.old) (Record.Mark m) }
    ensures bits { bits.new ≡ marked_in s.sheet (Record.Mark m) bits.old }
{
    if !is_block(s.sheet, m) {
        return Err(Refusal::Mark);
    }
    let b = block_of(s.sheet, m) as usize;
    let before = bits[b];
    bits[b] = true;
    if before {
        return Err(Refusal::Mark);
    }
    Ok(s)
}

// The state after a good line, or its refusal. The block of a mark is marked in the map of all blocks.
#[tactic(auto, unfolding(crate::specs::Progress::taken_if))]
pub fn take_record(s: State, rec: Record, bits: &mut [bool; 12288]) -> Result<State, Refusal>
    requires { Due s rec }
    ensures state { result ≡ taken_if s (twice_in s.sheet rec bits.old) rec }
    ensures bits { bits.new ≡ marked_in s.sheet rec bits.old }
{
    match rec {
        Record::Header(h) => Ok(State {
            begun: true,
            sheet: no_channels(h),
            read: 0,
            left: 0,
        }),
        Record::Setting(x) => Ok(State {
            sheet: Sheet {
                settings: set_one(s.sheet.settings, x),
                ..s.sheet
            },
            ..s
        }),
        Record::Channel(c) => take_channel(s, c),
        Record::Block => Ok(State {
            left: s.left - 1,
            ..s
        }),
        Record::Mark(m) => take_mark(s, m, bits),
    }
}
