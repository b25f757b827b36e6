// The public calls on a run, in `jobs`: start, push, data, blend, move and project.
#![tactic(auto)]

pub mod jobs;
