// The run's record, which records are legal, and what each call refuses (document 01, "Jobs and positions" and the table of refusals).
#![tactic(auto)]

pub mod legal;
pub mod lent;
pub mod places;
pub mod refusals;
pub mod scans;

ghost use Rattle.std.specs.Prelude.{◌≡◌, ◌≤◌, take};
ghost use Rattle.record.specs.Model.{turn_of};

use refusal::Refusal;
use start::coef::Reorder;

// A channel of the run: own sides, factors across and down, data weight, the step after which it is held (M-108), position, mark, and how many
// coefficients its last project clipped.
#[repr(C)]
#[derive(Clone, Copy)]
pub struct Channel {
    pub width: u32,
    pub height: u32,
    pub across: u32,
    pub down: u32,
    pub weight: f32,
    pub held: u32,
    pub position: u32,
    // Kept: the mark is a value of document 01's record, in the struct that C lends, and says nothing of another field.
    pub mark: bool,
    pub clipped: u32,
}

// The run's record: W, H, N, the smoothing weight, the letter of line A, and its channels, the first `count` of three. Every value of the letter is
// legal, and only start looks at it.
// Kept: three channels and their count: there is no heap, and `LentRun` of `smoother`, which C lends, has three; `channels` gives those that the record has.
#[derive(Clone, Copy)]
pub struct Run {
    pub w: u32,
    pub h: u32,
    pub n: u32,
    pub smoothing: f32,
    pub reorder: Reorder,
    pub count: u32,
    pub channels: [Channel; 3],
}

impl Run {
    // The channels that the record has.
    pub fn channels(&self) -> &[Channel]
        requires { self.now.count ≤ 3 }
        ensures { result.now ≡ take self.now.count self.now.channels }
    {
        &self.channels[..self.count as usize]
    }
}

// The five jobs, in the order of their turns.
#[derive(Clone, Copy, Debug, PartialEq, Eq)]
pub enum Job {
    Push,
    Data,
    Blend,
    Move,
    Project,
}

impl Job {
    // Its place in the five, 0 push to 4 project: the remainder of a position modulo 5 gives the next job.
    pub fn turn(self) -> u8
        ensures { result ≡ turn_of self }
    {
        self as u8
    }
}

// The job of a number; 9 for a number that is no job's.
impl TryFrom<u8> for Job {
    type Error = Refusal;

    ghost use Rattle.record.specs.Job.{JobOf};

    ghost try_from_gives = { JobOf };

    fn try_from(n: u8) -> Result<Job, Refusal> {
        match n {
            0 => Ok(Job::Push),
            1 => Ok(Job::Data),
            2 => Ok(Job::Blend),
            3 => Ok(Job::Move),
            4 => Ok(Job::Project),
            _ => Err(Refusal::Turn),
        }
    }
}

// What an accepted call answers: done; a project done, with how many coefficients it clipped and whether the channel is now marked blown; a blend done,
// with both its totals.
// Kept: these are three answers of a call that is not refused, as the model's `Answer` has them; a refusal is the `Err` of a `Result` around it.
#[derive(Clone, Copy)]
pub enum Accepted {
    Done,
    Projected { clipped: u32, blown: bool },
    Blended { tv: f64, tgv: f64 },
}

// What a job tells of its channel: whether any plane value or saved coefficient is then NaN or infinite, and how many coefficients it clipped.
#[derive(Clone, Copy)]
pub struct Seen {
    // Kept: this is the channel's next mark itself; the number clipped is told and kept whether the channel is blown or not.
    pub blown: bool,
    pub clipped: u32,
}
