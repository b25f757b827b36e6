// What each call refuses, in the order of the tests: 13, 8, 4, pair by pair 5 and 14, then 12, 10, 11, 9.
ghost use Rattle.std.specs.Prelude.{◌≡◌, List, true, false, ℕ, IfOk};
ghost use Rattle.refusal.specs.Refusal.{answer_number};
ghost use Rattle.start.specs.Coef.{Levels};
ghost use Rattle.calls.specs.Jobs as jobs;
ghost use Rattle.calls.specs.Jobs.{on, blend, turn};
ghost use Rattle.calls.specs.Calls.{first, turn_tests, lend_tests, lent_levels, values_long, refusal, start_refusal};
ghost use Rattle.record.specs.Lent.{levels_in};
ghost use Rattle.record.specs.Model.{sheet_of, places_of, given_of, turn_of};

use crate::legal::{LegalRun, Turn, legal};
use crate::lent::Given;
use crate::scans::{all_equal, levels_fault};
use crate::{Job, Run};
use answers::tables_ok;
use refusal::Refusal;

// 13 and 8 of a call that is lent neither levels nor tables, its buffers' lengths being given; or the record, which is legal.
fn lend_refusal(run: Run, lengths: &[usize]) -> Result<LegalRun, Refusal>
    ensures ok { IfOk result (λ legal. legal.run ≡ run) }
    ensures number { (ls : Levels) (ts : List ℕ) → answer_number result ≡ first (lend_tests (given_of run ls ts) (places_of run) lengths.now false) }
{
    if !legal(run) {
        return Err(Refusal::Record);
    }
    let legal = LegalRun { run };
    if !all_equal(legal.total(), lengths) {
        return Err(Refusal::Length);
    }
    Ok(legal)
}

// 13, 8, 4, and pair by pair 5 and 14, of a call that is lent levels and tables: all that start refuses; or the record, which is legal.
pub fn start_refusal(run: Run, lengths: &[usize], given: Given) -> Result<LegalRun, Refusal>
    ensures ok { IfOk result (λ legal. legal.run ≡ run) }
    ensures number { answer_number result ≡ start_refusal (given_of run (levels_in given.entry) given.entry.tables.now) (places_of run) lengths.now }
{
    let legal = lend_refusal(run, lengths)?;
    if !legal.values_long(given) {
        return Err(Refusal::Length);
    }
    if !tables_ok(given.tables) {
        return Err(Refusal::Table);
    }
    levels_fault(given.lows, given.highs)?;
    Ok(legal)
}

impl LegalRun {
    // Lows and highs are w × h a channel, the tables 64 a channel.
    fn values_long(self, given: Given) -> bool
        ensures { result ≡ values_long (given_of self.run (levels_in given.entry) given.entry.tables.now) }
    {
        let places = self.levels_before(self.run.count);
        let tables = (self.run.count as usize) * 64;
        given.lows.len() == places && given.highs.len() == places && given.tables.len() == tables
    }

    // 12, 10, 11 and 9 of a job of channel c; or the channel's turn.
    #[tactic(auto, using(crate::proofs::Sizes::n_1000))]
    fn turn_refusal(self, c: u32, job: Job) -> Result<Turn, Refusal>
        ensures ok { IfOk result (λ turn. (turn.legal.run ≡ self.run) × (turn.c ≡ c)) }
        ensures number { (j : jobs.Job) → turn j ≡ turn_of job → answer_number result ≡ first (turn_tests (sheet_of self.run) (places_of self.run) (on j c)) }
    {
        if self.run.count <= c {
            return Err(Refusal::Channel);
        }
        let turn = Turn { legal: self, c };
        let x = turn.channel();
        if x.mark {
            return Err(Refusal::Blown);
        }
        if x.position == 5 * self.run.n {
            return Err(Refusal::Done);
        }
        if x.position % 5 != u32::from(job.turn()) {
            return Err(Refusal::Turn);
        }
        Ok(turn)
    }

    // 10, 11 and 9 of blend: any channel marked, any at its end, not every channel's turn.
    fn blend_turn_refusal(self) -> Result<(), Refusal>
        ensures { answer_number result ≡ first (turn_tests (sheet_of self.run) (places_of self.run) blend) }
    {
        if self.run.channels().iter().any(|x| x.mark) {
            return Err(Refusal::Blown);
        }
        let end = 5 * self.run.n;
        if self.run.channels().iter().any(|x| x.position == end) {
            return Err(Refusal::Done);
        }
        if !self.run.channels().iter().all(|x| x.position % 5 == 2) {
            return Err(Refusal::Turn);
        }
        Ok(())
    }
}

// The refusal of push or move; or the channel's turn.
pub fn job_refusal(run: Run, c: u32, job: Job, lengths: &[usize]) -> Result<Turn, Refusal>
    ensures ok { IfOk result (λ turn. (turn.legal.run ≡ run) × (turn.c ≡ c)) }
    ensures number { (j : jobs.Job) (ls : Levels) (ts : List ℕ) → turn j ≡ turn_of job → lent_levels (on j c) ≡ false → answer_number result ≡ refusal (given_of run ls ts) (places_of run) (on j c) lengths.now }
{
    lend_refusal(run, lengths)?.turn_refusal(c, job)
}

// The refusal of data or project, which are lent levels and tables; or the channel's turn.
pub fn fed_refusal(
    run: Run,
    c: u32,
    job: Job,
    lengths: &[usize],
    given: Given,
) -> Result<Turn, Refusal>
    ensures ok { IfOk result (λ turn. (turn.legal.run ≡ run) × (turn.c ≡ c)) }
    ensures number { (j : jobs.Job) → turn j ≡ turn_of job → lent_levels (on j c) ≡ true → answer_number result ≡ refusal (given_of run (levels_in given.entry) given.entry.tables.now) (places_of run) (on j c) lengths.now }
{
    start_refusal(run, lengths, given)?.turn_refusal(c, job)
}

// The refusal of blend; or the record, which is legal.
pub fn blend_refusal(run: Run, lengths: &[usize]) -> Result<LegalRun, Refusal>
    ensures ok { IfOk result (λ legal. legal.run ≡ run) }
    ensures number { (ls : Levels) (ts : List ℕ) → answer_number result ≡ refusal (given_of run ls ts) (places_of run) blend lengths.now }
{
    let legal = lend_refusal(run, lengths)?;
    legal.blend_turn_refusal()?;
    Ok(legal)
}
