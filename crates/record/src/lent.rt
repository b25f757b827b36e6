// What the calls are lent beside the record: levels and tables, and the six buffers.
ghost use Rattle.std.specs.Prelude.{◌≡◌};
ghost use Rattle.calls.specs.Calls.{lengths, all_six};
ghost use Rattle.record.specs.Lent.{six_of};

// The levels, as two buffers of one length, and the tables of quantisers.
// Kept: lows and highs are two slices, as C lends them; without a heap no list of pairs can be made of them.
#[derive(Clone, Copy)]
pub struct Given<'a> {
    pub lows: &'a [i16],
    pub highs: &'a [i16],
    pub tables: &'a [u16],
}

// The six buffers, each with the values of every channel, one channel after the other.
#[derive(Drop)]
pub struct Buffers<'a> {
    pub plane: &'a mut [f32],
    pub prior: &'a mut [f32],
    pub gradient: &'a mut [f32],
    pub across: &'a mut [f32],
    pub down: &'a mut [f32],
    pub saved: &'a mut [f32],
}

impl<'a> Buffers<'a> {
    // The lengths of the six. Rules out: the length of one given for another's; that of a channel's part.
    pub fn lengths(&self) -> [usize; 6]
        ensures { result ≡ lengths all_six (six_of self.now) }
    {
        [
            self.plane.len(),
            self.prior.len(),
            self.gradient.len(),
            self.across.len(),
            self.down.len(),
            self.saved.len(),
        ]
    }
}
