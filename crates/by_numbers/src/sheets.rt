// The sheet of a record's numbers.
ghost use Rattle.std.specs.Prelude.{◌≡◌, ◌+◌, ◌≤◌, ◌<◌, length, take};
ghost use Rattle.by_numbers.specs.Sheets.{record_count};
ghost use Rattle.by_numbers.specs.Whole.{header_from, channel_from, settings_from, sheet_of_numbers};

use crate::NUMBERS;
use contents::{Channel, Header, Letter, Settings, Sheet, Weight};

// Kept: the numbers are a plain array, and a `From` for the `Header` of another crate would need a type of this crate's around it, for functions that one function calls.
fn header_from(numbers: &[u32; NUMBERS]) -> Header
    ensures { result ≡ header_from numbers.now }
{
    Header {
        width: numbers[0],
        height: numbers[1],
        picture_width: numbers[2],
        picture_height: numbers[3],
        channels: numbers[4],
        joint: numbers[5] == 1,
        iterations: [numbers[6], numbers[7], numbers[8]],
        smoothing: [
            Weight::Bits(numbers[9]),
            Weight::Bits(numbers[10]),
            Weight::Bits(numbers[11]),
        ],
        data_weights: [
            Weight::Bits(numbers[12]),
            Weight::Bits(numbers[13]),
            Weight::Bits(numbers[14]),
        ],
    }
}

// Kept: as `header_from`.
fn settings_from(numbers: &[u32; NUMBERS]) -> Settings
    ensures { result ≡ settings_from numbers.now }
{
    Settings {
        rounding: Some(Letter::from(numbers[27])),
        start: Some(Letter::from(numbers[28])),
        hold: Some([numbers[29], numbers[30], numbers[31]]),
    }
}

// Kept: as `header_from`.
fn channel_from(numbers: &[u32; NUMBERS], at: usize) -> Channel
    requires { at + 3 < record_count }
    ensures { result ≡ channel_from numbers.now at }
{
    Channel {
        width: numbers[at],
        height: numbers[at + 1],
        across: numbers[at + 2],
        down: numbers[at + 3],
    }
}

// The sheet that a record's numbers say.
// Kept: as `header_from`.
pub fn sheet_of(numbers: &[u32; NUMBERS]) -> Sheet
    ensures { result ≡ sheet_of_numbers numbers.now }
{
    let first = channel_from(numbers, 15);
    let second = channel_from(numbers, 19);
    let third = channel_from(numbers, 23);
    Sheet {
        header: header_from(numbers),
        settings: settings_from(numbers),
        channels: [first, second, third],
    }
}

// The buffer becomes the first of the three numbers, as many as it has places.
pub fn put_clipped(from: [u32; 3], to: &mut [u32])
    requires { length to.old ≤ 3 }
    ensures { to.new ≡ take (length to.old) from }
{
    to.copy_from_slice(&from[..to.len()]);
}
