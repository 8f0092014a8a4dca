// What is wrong with a file: refusals 1 to 8.
ghost use Rattle.std.specs.Prelude.{◌≡◌, ◌+◌, ◌-◌, ◌<◌};
ghost use Rattle.meaning.specs.Clauses.{variable};
ghost use Rattle.meaning.specs.File.{signed, kind_row};
ghost use Rattle.format.specs.Forms.{class_of};
ghost use Rattle.faults.specs.Faults.{cut, unnamed, literal_fault, number_fault, fault_of};

use crate::places::{around, left_from, word_at, word_on};
use format::{Class, Problem, Row};

// What is wrong, with the numbers that tell it.
#[derive(Clone, Copy)]
pub enum Fault {
    TooLong,
    HeadCut(usize),
    BodyCut(usize, usize),
    KindOut(usize),
    LengthOut(usize, usize),
    CountsOut(usize, usize),
    LiteralZero,
    NoState(usize, usize),
    NextValue(usize, usize),
    NoVariable(usize, usize, usize, usize),
    ManyClauses,
    ManyLemmas,
    Behind(usize),
    Unknown,
}

// 2: a head, or a body, of which too few bytes are left.
fn cut(file: &[u8], place: usize) -> Fault
    ensures { result ≡ cut file.now place }
{
    let left = left_from(file, place);
    if left < 4 {
        return Fault::HeadCut(left);
    }
    Fault::BodyCut(word_at(file, place), left - 4)
}

// The variable of a literal's two bytes.
fn variable_of(u: usize) -> usize
    requires { u < 65536 }
    ensures { result ≡ variable (signed u) }
{
    if u < 32768 {
        return u;
    }
    65536 - u
}

// Which variables a record of a kind may name; of what is no kind, none.
fn class_there(kind: usize) -> Class
    ensures { class_of result ≡ (kind_row kind).class }
{
    // A kind is whatever two bytes of the file say, so it is a number here.
    if 7 <= kind {
        return Class::Nothing;
    }
    Row::of(kind).class
}

// A variable that the class of a record does not name.
fn unnamed(class: Class, v: usize, n: usize, m: usize) -> Fault
    requires { (n < 65536) × (m < 65536) }
    ensures { result ≡ unnamed (class_of class) v n m }
{
    match class {
        Class::Nothing | Class::State => Fault::NoState(v, n),
        // v is the next value of the state variable v - n.
        Class::Present if v <= n + n => Fault::NextValue(v, v.saturating_sub(n)),
        // An arm of its own: as an or-pattern behind the guard its goal has a name that may change.
        Class::Present => Fault::NoVariable(v, n, m, n + n + m),
        Class::Every => Fault::NoVariable(v, n, m, n + n + m),
    }
}

// 6: literal 0, or a variable that the record around it may not name.
fn literal_fault(file: &[u8], place: usize) -> Fault
    ensures { result ≡ literal_fault file.now place }
{
    let v = variable_of(word_at(file, place));
    if v == 0 {
        return Fault::LiteralZero;
    }
    let n = word_at(file, 4);
    let m = word_at(file, 6);
    let s = around(file, place);
    unnamed(class_there(s.kind), v, n, m)
}

// 7: the record at a place is one lemma too many, or one clause.
fn number_fault(file: &[u8], place: usize) -> Fault
    ensures { result ≡ number_fault file.now place }
{
    let s = around(file, place);
    if s.kind == 5 && s.position == Problem::LEMMAS_MOST {
        Fault::ManyLemmas
    } else {
        Fault::ManyClauses
    }
}

// What a refusal's number, which is the C interface's, says of the file, at its place.
pub fn fault_of(file: &[u8], number: u32, place: usize) -> Fault
    ensures { result ≡ fault_of file.now number place }
{
    match number {
        1 => Fault::TooLong,
        2 => cut(file, place),
        3 => Fault::KindOut(word_on(file, place, 2)),
        4 => Fault::LengthOut(word_at(file, place), word_on(file, place, 2)),
        5 => Fault::CountsOut(word_on(file, place, 4), word_on(file, place, 6)),
        6 => literal_fault(file, place),
        7 => number_fault(file, place),
        8 => Fault::Behind(left_from(file, place)),
        _ => Fault::Unknown,
    }
}
