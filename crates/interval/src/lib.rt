// A coefficient's interval: its ends, and the value of a level.
#![tactic(auto)]

ghost use Rattle.std.specs.Prelude.{◌≡◌, ◌≢◌, Bool, ℕ, ℤ, ◌↔◌, false, pos, ◌*ℤ◌, ◌+ℤ◌};
ghost use Rattle.std.specs.Float.{fin, nan};
ghost use Rattle.interval.specs.Interval.{EndsApart, HalfSums, InInterval, lies_outside};

/// A pair of levels and their quantiser.
// Every three numbers are one: what the levels and quantisers of a sheet are, its reader tests.
#[derive(Clone, Copy)]
pub struct Interval {
    pub low: i16,
    pub high: i16,
    pub quantiser: u16,
}

/// A clamped value, and whether the clamp moved it.
#[derive(Clone, Copy)]
pub struct Clamped {
    pub value: f32,
    // Kept: both fields stand after each call, moved or not, so that an enum of two variants would be no plainer: it would say the value twice.
    pub moved: bool,
}

impl Interval {
    ghost use Rattle.interval.specs.Interval.{lowest, highest, dequantised, clamp_to, outside, mid, whole};
    ghost use Rattle.interval.specs.Interval.{InInterval, IsHalf, OfSheet, lies_outside};

    // The lower end, (low - 0.5) * quantiser.
    #[tactic(auto, using(crate::proofs::Ends::half_bits), unfolding(crate::specs::Interval::lowest))]
    fn lowest(self) -> f32
        ensures { result ≡ lowest self.low self.quantiser }
    {
        (f32::from(self.low) - 0.5) * f32::from(self.quantiser)
    }

    // The upper end, (high + 0.5) * quantiser.
    #[tactic(auto, using(crate::proofs::Ends::half_bits), unfolding(crate::specs::Interval::highest))]
    fn highest(self) -> f32
        ensures { result ≡ highest self.high self.quantiser }
    {
        (f32::from(self.high) + 0.5) * f32::from(self.quantiser)
    }

    /// The half sum of the pair, which is never rounded; of an equal pair the level itself.
    // Rules out: a half sum cut to a whole number; the low level for both.
    pub fn mid(self) -> f32
        ensures value { result ≡ mid self.low self.high }
        ensures exact { IsHalf result (self.low +ℤ self.high) }
        ensures equal { self.low ≡ self.high → result ≡ whole self.low }
    {
        (f32::from(self.low) + f32::from(self.high)) * 0.5
    }

    /// Half sum × quantiser, which for the numbers of a sheet is not rounded either, and lies in the
    /// interval.
    // Rules out: the value of the low level alone; the quantiser added.
    #[tactic(auto, unfolding(crate::specs::Interval::dequantised))]
    pub fn dequantised(self) -> f32
        ensures value { result ≡ dequantised (mid self.low self.high) self.quantiser }
        ensures exact { OfSheet self.low self.high self.quantiser
            → IsHalf result ((self.low +ℤ self.high) *ℤ pos self.quantiser) }
        ensures inside { OfSheet self.low self.high self.quantiser
            → InInterval self.low self.high self.quantiser result }
    {
        self.mid() * f32::from(self.quantiser)
    }

    /// x, or the end of the interval that it lies beyond; a NaN stays, and counts as unmoved. With
    /// the numbers of a sheet it counts as moved exactly where it lies outside the exact interval.
    // Rules out: a NaN turned into an end; an interval of level × quantiser alone; a value at an
    // end that counts as moved; one outside the exact interval that doesn't.
    #[tactic(auto, unfolding(crate::specs::Interval::outside))]
    pub fn clamp_to(self, x: f32) -> Clamped
        ensures value { result.value ≡ clamp_to self.low self.high self.quantiser x }
        ensures moved { result.moved ≡ outside self.low self.high self.quantiser x }
        ensures exact { OfSheet self.low self.high self.quantiser
            → result.moved ≡ lies_outside self.low self.high self.quantiser x }
        ensures inside { OfSheet self.low self.high self.quantiser → x ≢ nan
            → InInterval self.low self.high self.quantiser result.value }
    {
        let least = self.lowest();
        let most = self.highest();
        Clamped {
            value: float::clamp(x, least, most),
            moved: (x < least) | (most < x),
        }
    }
}

/// The half sum of a sheet's pair and its product with the quantiser are exact, and the product lies
/// in the pair's interval.
pub fn half_sum_law()
    ensures { HalfSums }
{}

/// With the numbers of a sheet the lower end is below the upper; and a finite value lies outside
/// by the test just where it is not in the interval.
pub fn interval_law()
    ensures apart { EndsApart }
    ensures test { (low high : ℤ) (q : ℕ) (s : Bool) (m : ℕ) (e : ℤ)
        → (lies_outside low high q (fin s m e) ≡ false) ↔ InInterval low high q (fin s m e) }
{}
