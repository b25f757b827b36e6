// Levels rearranged for the archive (M-109): a channel's levels in T.81's zigzag order, the first of each block as its difference from
// that of the block before; and back. The functions but `rearrange` and `restore` are internal.
#![tactic(auto)]

ghost use Rattle.std.specs.Prelude.{◌≡◌, true, ◌+◌, ◌*◌, ◌/◌, ◌%◌, ◌<◌, ◌≤◌, OnOk, OnErr, length};
ghost use Rattle.answers.specs.Tests.{all, level_ok};
ghost use Rattle.answers.specs.Answers.{filled};
ghost use Rattle.refusal.specs.Refusal.{answer_number};
ghost use Rattle.archive.specs.Archive.{before, stored_at, rearranged, restored, turned, first_after, fitting, rearranging, restoring, GivesBack};

use answers::{level_ok, levels_ok};
use refusal::Refusal;
use zigzag::put_each;

// Equal lengths, a multiple of 64.
fn fitting(n: usize, m: usize) -> bool
    ensures { result ≡ fitting n m }
{
    n == m && n % 64 == 0
}

// The first level of the block before the one that starts at place k, and 0 before the first block.
// Kept: by places, as the definitions of M-109 are: of `out` after a loop over `out.chunks_exact_mut(64)` a proof knows the length alone, as in `row` of `picture`, and
// `restored_ok` walks as `restore_all` does, so that its answer is about the very levels that this writes.
fn before(levels: &[i16], k: usize) -> i16
    requires { k < length levels.now }
    ensures { result ≡ before levels.now k }
{
    if k < 64 { 0 } else { levels[k - 64] }
}

// What the archive has at place k.
#[tactic(auto, using(zigzag::proofs::Places::raster_in, crate::proofs::Levels::stored_fits), unfolding(crate::specs::Archive::stored_at))]
fn stored_at(levels: &[i16], k: usize) -> i16
    requires { (k < length levels.now) × (length levels.now % 64 ≡ 0) × (all level_ok levels.now ≡ true) }
    ensures { result ≡ stored_at levels.now k }
{
    if k % 64 == 0 {
        levels[k] - before(levels, k)
    } else {
        levels[zigzag::raster(k)]
    }
}

fn rearrange_all(levels: &[i16], out: &mut [i16])
    requires { (length out.old ≡ length levels.now) × (length levels.now % 64 ≡ 0) × (all level_ok levels.now ≡ true) }
    ensures { out.new ≡ rearranged levels.now }
{
    put_each(out, |k| stored_at(levels, k));
}

// The level at place p, where `first` is the first level of the block before, or of p's own block behind its first place.
#[tactic(auto, using(zigzag::proofs::Places::zigzag_within), unfolding(crate::specs::Archive::turned))]
fn restored_at(stored: &[i16], first: i32, p: usize) -> i32
    requires { (p / 64 * 64 + 64 ≤ length stored.now) × (level_ok first ≡ true) }
    ensures { result ≡ turned stored.now first p }
{
    if p % 64 == 0 {
        first + i32::from(stored[p])
    } else {
        i32::from(stored[zigzag::zigzag(p)])
    }
}

// The first level that the next place goes by, once place p has its level.
fn first_after(first: i32, p: usize, level: i32) -> i32
    ensures { result ≡ first_after first p level }
{
    if p % 64 == 0 { level } else { first }
}

// Every level that restoring gives is within ±2,047. The sum of the differences is looked at after each block, so it can't overflow.
fn restored_ok(stored: &[i16]) -> bool
    requires { length stored.now % 64 ≡ 0 }
    ensures { result ≡ all level_ok (restored stored.now) }
{
    let mut first: i32 = 0;
    for p in 0..stored.len() {
        let level = restored_at(stored, first, p);
        if !level_ok(level) {
            return false;
        }
        first = first_after(first, p, level);
    }
    true
}

// Kept: the walk of `restored_ok`, which ends at the first bad level and writes nothing; one function of both would have written the levels before it by the time a bad one comes, and a refusal leaves `out` as it was.
fn restore_all(stored: &[i16], out: &mut [i16])
    requires { (length out.old ≡ length stored.now) × (length stored.now % 64 ≡ 0) × (all level_ok (restored stored.now) ≡ true) }
    ensures { out.new ≡ restored stored.now }
{
    let mut first: i32 = 0;
    for (p, restored) in out.iter_mut().enumerate() {
        let level = restored_at(stored, first, p);
        *restored = level as i16;
        first = first_after(first, p, level);
    }
}

// The levels of one channel, rearranged for the archive.
// Kept: one function of both would be `call<O: Fn(&[i16]) -> bool, W: Fn(&[i16], &mut [i16])>(from, out, ok, write)`. It requires that `ok` may be called where the lengths fit
// and `write` where `ok` said true, and ensures by `O.post` and `W.post` what the one says and the other leaves: four clauses on functions for eight lines that stand once less.
// Rules out: level 3 at place 3, where T.81 has level 16; 2048 accepted in the last block; `out` changed by a refusal; an archive from which other levels come back.
#[tactic(auto, unfolding(crate::specs::Archive::rearranging))]
pub fn rearrange(levels: &[i16], out: &mut [i16]) -> Result<(), Refusal>
    ensures written { filled (answer_number result) out.new ≡ rearranging levels.now out.old }
    ensures undone { OnOk result (GivesBack restoring out.new levels.now) }
    ensures unchanged { OnErr result (out.new ≡ out.old) }
{
    if !fitting(levels.len(), out.len()) {
        return Err(Refusal::Length);
    }
    if !levels_ok(levels) {
        return Err(Refusal::Level);
    }
    rearrange_all(levels, out);
    Ok(())
}

// The levels of one channel, from what the archive has.
// Kept: as `rearrange`.
// Rules out: a difference of 4,094 refused behind a first level of -2,047; the differences 2,047 and 1 accepted, whose sum is no level; levels whose archive is another.
#[tactic(auto, unfolding(crate::specs::Archive::restoring))]
pub fn restore(stored: &[i16], out: &mut [i16]) -> Result<(), Refusal>
    ensures written { filled (answer_number result) out.new ≡ restoring stored.now out.old }
    ensures undone { OnOk result (GivesBack rearranging out.new stored.now) }
    ensures unchanged { OnErr result (out.new ≡ out.old) }
{
    if !fitting(stored.len(), out.len()) {
        return Err(Refusal::Length);
    }
    if !restored_ok(stored) {
        return Err(Refusal::Level);
    }
    restore_all(stored, out);
    Ok(())
}
