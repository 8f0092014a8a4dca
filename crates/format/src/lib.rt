// The problem file's leaves: the limits, what each kind may hold, two bytes and a literal read in place. Nothing is copied: a clause is a
// span of the file's bytes.
#![tactic(auto)]

ghost use Rattle.std.specs.Prelude.{◌≡◌, ◌+◌, ◌<◌, ◌≤◌, length};
ghost use Rattle.std.specs.Int.{w16, cast_signed};
ghost use Rattle.meaning.specs.File.{two_at, literal_at, kind_row};
ghost use Rattle.format.specs.Forms.{literal_of, kind_of};

// The records of a kind: where the first starts, and how many they are.
#[derive(Clone, Copy)]
pub struct Section {
    pub at: usize,
    pub count: usize,
}

// A problem as it stands in its file: n state variables, m inputs and helpers, k lemmas; and where the records of each of the four kinds of
// clauses stand. Of the lemmas only the place is given, since k is how many they are, and every contract above calls it k.
#[derive(Clone, Copy)]
pub struct Problem {
    pub n: usize,
    pub m: usize,
    pub k: usize,
    pub init: Section,
    pub tr: Section,
    pub bad: Section,
    pub lemmas_at: usize,
}

// The limits, each named once.
impl Problem {
    pub const FILE_MOST: usize = 65536;

    pub const N_MOST: usize = 96;

    pub const M_MOST: usize = 320;

    pub const CLAUSES_MOST: usize = 4096;

    pub const LEMMAS_MOST: usize = 128;
}

// Which variables a body may name: none, those of the state, those of the present moment (all but next values), or every one.
#[derive(Clone, Copy)]
pub enum Class {
    Nothing,
    State,
    Present,
    Every,
}

// What a kind may hold: shortest and longest body, whether its length is even, its variables, and how many records of it there may be.
#[derive(Clone, Copy)]
pub struct Row {
    pub shortest: usize,
    pub longest: usize,
    pub even: bool,
    pub class: Class,
    pub most: usize,
}

const ROWS: [Row; 7] = [
    Row {
        shortest: 0,
        longest: 0,
        even: false,
        class: Class::Nothing,
        most: 0,
    },
    Row {
        shortest: 4,
        longest: 4,
        even: true,
        class: Class::Nothing,
        most: 1,
    },
    Row {
        shortest: 0,
        longest: 128,
        even: true,
        class: Class::State,
        most: Problem::CLAUSES_MOST,
    },
    Row {
        shortest: 0,
        longest: 128,
        even: true,
        class: Class::Every,
        most: Problem::CLAUSES_MOST,
    },
    Row {
        shortest: 0,
        longest: 128,
        even: true,
        class: Class::Present,
        most: Problem::CLAUSES_MOST,
    },
    Row {
        shortest: 0,
        longest: 128,
        even: true,
        class: Class::State,
        most: Problem::LEMMAS_MOST,
    },
    Row {
        shortest: 0,
        longest: 0,
        even: true,
        class: Class::Nothing,
        most: 1,
    },
];

impl Row {
    // The row of a kind.
    pub fn of(kind: usize) -> Row
        requires { kind < 7 }
        ensures { kind_of result ≡ kind_row kind }
    {
        ROWS[kind]
    }
}

// A literal: a variable, or its negation.
#[derive(Clone, Copy)]
pub enum Literal {
    Pos(usize),
    Neg(usize),
}

// Two bytes at a place, little-endian.
#[tactic(auto, unfolding(meaning::specs::File::two_at))]
pub fn two_at(file: &[u8], at: usize) -> usize
    requires { at + 1 < length file.now }
    ensures { (result ≡ two_at file.now at) × (result < 65536) }
{
    usize::from(u16::from_le_bytes([file[at], file[at + 1]]))
}

// The signed number that two bytes at a place say, little-endian. A function of its own, so that the two are read as one word where it is inlined.
#[tactic(auto, unfolding(meaning::specs::File::two_at))]
fn signed_at(file: &[u8], at: usize) -> i16
    requires { at + 1 < length file.now }
    ensures { result ≡ cast_signed w16 (two_at file.now at) }
{
    i16::from_le_bytes([file[at], file[at + 1]])
}

// The literal at a place: v for a variable, -v for its negation. The range is tested before the number is negated: -32768 has no positive of
// two bytes, and its variable is larger than any.
#[tactic(auto, using(std::proofs::lemmas::Int::ints), unfolding(meaning::specs::File::literal_at, meaning::specs::File::signed, meaning::specs::File::two_at))]
pub fn literal_at(file: &[u8], at: usize) -> Literal
    requires { at + 1 < length file.now }
    ensures { literal_of result ≡ literal_at file.now at }
{
    let x = signed_at(file, at);
    if 0 <= x {
        return Literal::Pos(x as usize);
    }
    if x == -32768 {
        return Literal::Neg(32768);
    }
    Literal::Neg((-x) as usize)
}
