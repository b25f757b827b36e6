// The reading of a sheet text: `read`, the limits of sides and of iterations, the reader's number, the refusal's number and line, a digest of what was read (the record's
// numbers, lows, highs, tables), and the text's bytes.
use by_numbers::{NUMBERS, reading};
use contents::Limits;
use float::bits::to_bits;
use sheet::Refused;
use words::running::{bytes, number_at, word};
use words::with_all;

// What a line asks: the reading of a text within limits, for the reader of a number.
#[derive(Clone, Copy)]
struct Asked<'a> {
    text: &'a [u8],
    limits: Limits,
    reader: u32,
}

// A level counts by the bits of its f32.
fn level_bits(level: i16) -> u32 {
    to_bits(f32::from(level))
}

impl Asked<'_> {
    // Reads into these buffers. Gives a digest of what was read.
    fn read(
        &self,
        lows: &mut [i16],
        highs: &mut [i16],
        tables: &mut [u16],
    ) -> Result<u32, Refused> {
        let mut header = [0u32; NUMBERS];
        reading::read(
            self.text,
            self.limits,
            self.reader,
            lows,
            highs,
            tables,
            &mut header,
        )?;
        let d = with_all(0, &header, |n| n);
        let e = with_all(d, lows, level_bits);
        let f = with_all(e, highs, level_bits);
        Ok(with_all(f, tables, u32::from))
    }

    // What reading gives for a text that measuring refuses: the same refusal, unless there is no such reader; None where it gives another.
    fn read_refused(&self, measured: Refused) -> Option<Result<u32, Refused>> {
        let read = self.read(&mut [0; 1], &mut [0; 1], &mut [0; 1]);
        (1 < self.reader || read == Err(measured)).then_some(read)
    }

    // Reads into the front of the buffers; None where there is no room.
    fn read_measured(&self) -> Option<Result<u32, Refused>> {
        let mut lows = [0i16; 3072];
        let mut highs = [0i16; 3072];
        let mut tables = [0u16; 192];
        let lengths = match sheet::measure(self.text, self.limits) {
            Ok(lengths) => lengths,
            Err(e) => return self.read_refused(e),
        };
        let n = lengths.levels;
        let m = lengths.tables;
        if lows.len() < n || tables.len() < m {
            return None;
        }
        Some(self.read(&mut lows[..n], &mut highs[..n], &mut tables[..m]))
    }
}

// Whether the line has what the proved call reads, or its refusal.
pub fn same_read(line: &[u8]) -> bool {
    let mut text = [0u8; 4096];
    let n = bytes(word(line, 7), &mut text);
    let asked = Asked {
        text: &text[..n],
        limits: Limits {
            side: number_at(line, 1),
            iterations: number_at(line, 2),
        },
        reader: number_at(line, 3),
    };
    let (number, at, digest) = match asked.read_measured() {
        Some(Ok(digest)) => (0, 0, digest),
        Some(Err(refused)) => (u32::from(refused.refusal), refused.line, 0),
        None => return false,
    };
    number_at(line, 4) == number
        && number_at(line, 5) as usize == at
        && number_at(line, 6) == digest
}
