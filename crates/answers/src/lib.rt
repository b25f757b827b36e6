// Tests of lent values: whether every quantiser is 1 to 255, and every level within ±2,047. For contracts to cite, specs/ has what the tests of a call give and
// what a call leaves of the slice that it is lent.
#![tactic(auto)]

ghost use Rattle.std.specs.Prelude.{◌≡◌};
ghost use Rattle.answers.specs.Tests.{all, table_ok, level_ok};

// A quantiser of 1 to 255. Ruled out: true for 0; false for 255.
pub fn table_ok(q: u16) -> bool
    ensures { result ≡ table_ok q }
{
    (1..=255).contains(&q)
}

// Every quantiser is 1 to 255. Ruled out: true where the last is 0; false for no quantisers.
// Kept: this is one call of std's `all`, as `any_bad` of `projection` is one of `any`, and a function of both would be no plainer than these.
pub fn tables_ok(tables: &[u16]) -> bool
    ensures { result ≡ all table_ok tables.now }
{
    tables.iter().all(|&q| table_ok(q))
}

// A level within ±2,047. Ruled out: true for -2,048; false for -2,047.
pub fn level_ok(d: i32) -> bool
    ensures { result ≡ level_ok d }
{
    d.unsigned_abs() <= 2047
}

// Every level is within ±2,047. Ruled out: true where the last is 2,048; false for no levels.
// Kept: no `all`, which stops at the first that is beyond: without a stop eight are looked at at once.
#[tactic(auto, using(crate::proofs::Tests::all_fold))]
pub fn levels_ok(levels: &[i16]) -> bool
    ensures { result ≡ all level_ok levels.now }
{
    levels
        .iter()
        .fold(true, |ok, &d| ok & level_ok(i32::from(d)))
}
