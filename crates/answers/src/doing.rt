// The job that an order asks for, done.
ghost use Rattle.std.specs.Prelude.{◌≡◌};
ghost use Rattle.jobs.specs.Outcome.{outcome_of};
ghost use Rattle.answers.specs.Doing.{job_told, job_call, lent_bytes};

use format::Problem;
use problem::Report;
use told::Job;

// The job that a word names. No `From`: both types are of other crates, so an impl could not stand here.
pub fn job_told(job: Option<words::Job>) -> Job
    ensures { result ≡ job_told job }
{
    match job {
        Some(words::Job::Largest) => Job::Largest,
        Some(words::Job::One) => Job::One,
        Some(words::Job::List) => Job::List,
        None
        | Some(words::Job::Check | words::Job::Problem | words::Job::Help | words::Job::Version) =>
            Job::Check,
    }
}

// A check is lent no bytes, a marking job one for each lemma that a file may have, a listing the space.
pub fn lent_bytes(job: Job, space: usize) -> usize
    ensures { result ≡ lent_bytes job space }
{
    match job {
        Job::Check => 0,
        Job::Largest | Job::One => Problem::LEMMAS_MOST,
        Job::List => space,
    }
}

// The call that a job is.
pub fn done(job: Job, file: &[u8], budget: u32, lent: &mut [u8]) -> Report
    ensures { outcome_of result lent.new ≡ job_call job file.now budget lent.old }
{
    match job {
        Job::Check => problem::check(file),
        Job::Largest => jobs::mark_largest(file, budget, lent),
        Job::One => jobs::mark_one(file, budget, lent),
        Job::List => jobs::list_all(file, budget, lent),
    }
}
