// The order that a command line gives, and what each word may add to it.
ghost use Rattle.std.specs.Prelude.{◌≡◌};
ghost use Rattle.words.specs.Orders.{number_fault, begun, most_words, needs_lemmas, take_job};
ghost use Rattle.words.specs.Orders.{with_fault, with_job, with_marks, with_awaiting, with_lemmas};
ghost use Rattle.words.specs.Orders.{with_file, with_budget, with_space};

use spelling::NumberFault;

// What is to be done.
#[derive(Clone, Copy, PartialEq, Eq)]
pub enum Job {
    Check,
    Largest,
    One,
    List,
    Problem,
    Help,
    Version,
}

// What is wrong with the words.
#[derive(Clone, Copy, PartialEq, Eq)]
pub enum Fault {
    Unknown,
    Superfluous,
    NotANumber,
    TooLarge,
    NoFile,
    NoJob,
    NoLemmas,
    NoLemmaFile,
    TwoInputs,
}

impl From<NumberFault> for Fault {
    ghost from_gives = { λ e r. r ≡ number_fault e };

    fn from(fault: NumberFault) -> Fault {
        match fault {
            NumberFault::Over => Fault::TooLarge,
            NumberFault::Not => Fault::NotANumber,
        }
    }
}

// The order so far: the job, once a word named it, how many words were named for it (file, budget, space, in this order), whether marks
// alone are wanted, the budget in decisions, the space in bytes, whether the next word names the lemma file, whether that is named, whether a
// file is standard input, and the first fault. The flags stay two: what `take` promises, `take_word`, speaks of every order, both of them true too.
#[derive(Clone, Copy)]
pub struct Order {
    pub job: Option<Job>,
    pub named: usize,
    pub marks: bool,
    pub budget: u32,
    pub space: usize,
    pub awaiting: bool,
    pub lemmas: bool,
    pub input: bool,
    pub fault: Option<Fault>,
}

// The largest budget, and the largest space.
impl Order {
    pub const BUDGET_MOST: u32 = 4294967295;

    pub const SPACE_MOST: u32 = 1048576;
}

// The order before any word.
pub fn begin() -> Order
    ensures { result ≡ begun }
{
    Order {
        job: None,
        named: 0,
        marks: false,
        budget: 1000000,
        space: 65536,
        awaiting: false,
        lemmas: false,
        input: false,
        fault: None,
    }
}

// How many words a job takes: a file, a budget, a space.
pub fn most_words(job: Option<Job>) -> usize
    ensures { result ≡ most_words job }
{
    match job {
        None | Some(Job::Help | Job::Version) => 0,
        Some(Job::Check | Job::Problem) => 1,
        Some(Job::Largest | Job::One) => 2,
        Some(Job::List) => 3,
    }
}

// Whether a job is of circuits alone.
pub fn needs_lemmas(job: Option<Job>) -> bool
    ensures { result ≡ needs_lemmas job }
{
    matches!(job, Some(Job::Problem))
}

impl Order {
    pub fn with_fault(mut self, fault: Fault) -> Order
        ensures { result ≡ with_fault self fault }
    {
        self.fault = Some(fault);
        self
    }

    pub fn with_job(mut self, job: Job) -> Order
        ensures { result ≡ with_job self job }
    {
        self.job = Some(job);
        self
    }

    pub fn with_marks(mut self) -> Order
        ensures { result ≡ with_marks self }
    {
        self.marks = true;
        self
    }

    pub fn with_awaiting(mut self) -> Order
        ensures { result ≡ with_awaiting self }
    {
        self.awaiting = true;
        self
    }

    pub fn with_lemmas(mut self, input: bool) -> Order
        ensures { result ≡ with_lemmas self input }
    {
        self.awaiting = false;
        self.lemmas = true;
        self.input = input;
        self
    }

    pub fn with_file(mut self, input: bool) -> Order
        ensures { result ≡ with_file self input }
    {
        self.named = 1;
        self.input = input;
        self
    }

    pub fn with_budget(mut self, n: Result<u32, NumberFault>) -> Order
        ensures { result ≡ with_budget self n }
    {
        match n {
            Ok(budget) => {
                self.named = 2;
                self.budget = budget;
                self
            }
            Err(fault) => self.with_fault(Fault::from(fault)),
        }
    }

    pub fn with_space(mut self, n: Result<u32, NumberFault>) -> Order
        ensures { result ≡ with_space self n }
    {
        match n {
            Ok(space) => {
                self.named = 3;
                self.space = space as usize;
                self
            }
            Err(fault) => self.with_fault(Fault::from(fault)),
        }
    }

    // The first word names the job.
    pub fn take_job(self, job: Option<Job>) -> Order
        ensures { result ≡ take_job self job }
    {
        match job {
            None => self.with_fault(Fault::Unknown),
            Some(job) => self.with_job(job),
        }
    }
}
