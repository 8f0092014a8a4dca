// What a problem file is refused for, and where.
ghost use Rattle.std.specs.Prelude.{◌≡◌};
ghost use Rattle.problem.specs.Refusals.{number_of};

// The rules that a file may break.
#[derive(Clone, Copy, PartialEq, Eq)]
pub enum Rule {
    TooLong,
    Short,
    Kind,
    Length,
    Counts,
    Literal,
    TooMany,
    Trailing,
}

// The rule that is broken first, and the place in the file.
#[derive(Clone, Copy, PartialEq, Eq)]
pub struct Refusal {
    pub rule: Rule,
    pub place: usize,
}

impl Rule {
    // The rule's number, as a report has it.
    pub fn number(self) -> u32
        ensures { result ≡ number_of self }
    {
        match self {
            Rule::TooLong => 1,
            Rule::Short => 2,
            Rule::Kind => 3,
            Rule::Length => 4,
            Rule::Counts => 5,
            Rule::Literal => 6,
            Rule::TooMany => 7,
            Rule::Trailing => 8,
        }
    }

    pub fn at(self, place: usize) -> Refusal
        ensures { result ≡ (record { rule = self; place = place }) }
    {
        Refusal { rule: self, place }
    }
}
