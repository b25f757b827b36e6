// A list of calls by their numbers, made one after the other from any record; and what of its numbers is tested before it.
ghost use Rattle.std.specs.Prelude.{◌≡◌, true, length};
ghost use Rattle.refusal.specs.Refusal.{answer_number};
ghost use Rattle.calls.specs.Calls.{start_refusal};
ghost use Rattle.record.specs.Lent.{levels_in, six_of, SameSix};
ghost use Rattle.record.specs.Model.{answer_of, given_of, places_of};
ghost use Rattle.serve.specs.Serve.{ListIs, all_jobs, byte_of, serve_refusal};

use record::legal::legal;
use record::lent::{Buffers, Given};
use record::refusals::start_refusal;
use record::{Accepted, Job, Run};
use refusal::Refusal;

/// The byte of an answer that leaves its channel marked blown.
pub const BLOWN: u8 = 255;

// An answer as a byte: 0 done, 255 a project done whose channel is now marked blown, else the refusal's number. Ruled out: 0 for a project that marks its channel; 255 for a refusal.
// Kept: neither `Result` nor u8 is this crate's, so that no impl of `From` between them can stand here.
pub fn answer_byte(answer: Result<Accepted, Refusal>) -> u8
    ensures { result ≡ byte_of (answer_of answer) }
{
    match answer {
        Ok(Accepted::Projected { blown: true, .. }) => BLOWN,
        Ok(_) => 0,
        Err(refusal) => refusal.number(),
    }
}

// Every number is a job's, 0 to 4.
pub fn all_jobs(jobs: &[u8]) -> bool
    ensures { result ≡ all_jobs jobs.now }
{
    jobs.iter().all(|&n| Job::try_from(n).is_ok())
}

// What a list of calls on a fresh run refuses; `lengths` are those of the six buffers.
pub fn serve_refusal(
    run: Run,
    jobs: &[u8],
    channels: usize,
    answers: usize,
    lengths: &[usize],
    given: Given,
) -> Result<(), Refusal>
    ensures { answer_number result ≡ serve_refusal (start_refusal (given_of run (levels_in given.entry) given.entry.tables.now) (places_of run) lengths.now) jobs.now channels answers }
{
    if !legal(run) {
        return Err(Refusal::Record);
    }
    let long = (channels == jobs.len()) & (answers == jobs.len());
    if !long {
        return Err(Refusal::Length);
    }
    start_refusal(run, lengths, given)?;
    if !all_jobs(jobs) {
        return Err(Refusal::Turn);
    }
    Ok(())
}

// The calls one after the other, each on the record and the buffers that the one before left.
pub fn make_calls(
    run: &mut Run,
    jobs: &[u8],
    channels: &[u32],
    answers: &mut [u8],
    given: Given,
    lent: &mut Buffers,
)
    requires { (length channels.now ≡ length jobs.now) × (length answers.old ≡ length jobs.now) × (all_jobs jobs.now ≡ true) }
    ensures is { ListIs run.old jobs.now channels.now (levels_in given.entry) given.entry.tables.now
        (six_of lent.old) answers.new run.new (six_of lent.new) }
    ensures same { SameSix lent.old lent.new }
{
    // Kept: tried with `jobs.iter().zip(channels).zip(answers.iter_mut())`, and the proof didn't close: a byte that is stored through an item of `zip` leaves no trace in the
    // loop's state, so that of `answers` only the length is known after it. With `iter_mut` outermost and two calls of `zip` the borrow checker doesn't cover the function.
    for (i, answer) in answers.iter_mut().enumerate() {
        let job = Job::try_from(jobs[i]).unwrap();
        *answer = answer_byte(numbered::job_value(run, job, channels[i], given, lent));
    }
}
