// What a reader gets of the levels of marked blocks.
#![tactic(auto)]

ghost use Rattle.std.specs.Prelude.{◌≡◌};
ghost use Rattle.hiding.specs.Shown.{hidden_by, shown_by, shown_to};

use contents::Reader;

// Does the level at place i stand in a marked block, and not first?
fn is_hidden(bits: &[bool], i: usize) -> bool
    ensures { result ≡ hidden_by bits.now i }
{
    i % 64 != 0 && bits.get(i / 64).copied().unwrap_or(false)
}

// All levels of a marked block but the first become 0.
// Kept: tried as `for (block, &marked) in levels.chunks_mut(64).zip(bits) { if marked { block[1..].fill(0); } }`, and the proof didn't close: the loop's invariant can't name `levels` while the
// iterator lends it, and after the loop only its length is known, so that `levels.new ≡ shown_by ..` stayed open.
fn hide(bits: &[bool], levels: &mut [i16])
    ensures { levels.new ≡ shown_by bits.now 0 levels.old }
{
    for (i, level) in levels.iter_mut().enumerate() {
        if is_hidden(bits, i) {
            *level = 0;
        }
    }
}

// The levels as this reader gets them.
pub fn show(who: Reader, bits: &[bool], levels: &mut [i16])
    ensures { levels.new ≡ shown_to who bits.now levels.old }
{
    match who {
        Reader::Staff => {}
        Reader::Partner => hide(bits, levels),
    }
}
