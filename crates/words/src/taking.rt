// The words of a command line, taken one after another.
ghost use Rattle.std.specs.Prelude.{◌≡◌};
ghost use Rattle.words.specs.Orders.{job_of, is_input, take_file, take_lemmas, take_marks, take_asked};
ghost use Rattle.words.specs.Orders.{take_option, take_named, take_plain, take_open, take_word};
ghost use Rattle.words.specs.Orders.{lacking_lemmas, lacking_file, lacking, finished, is_file, is_lemmas};

use crate::order::{Fault, Job, Order, most_words, needs_lemmas};
use spelling::{is_option, read_number};

// Which job a word names.
#[tactic(auto, unfolding(crate::specs::Orders::job_of))]
fn job_of(word: &[u8]) -> Option<Job>
    ensures { result ≡ job_of word.now }
{
    match word {
        b"check" => Some(Job::Check),
        b"largest" => Some(Job::Largest),
        b"one" => Some(Job::One),
        b"list" => Some(Job::List),
        b"problem" => Some(Job::Problem),
        b"--help" => Some(Job::Help),
        b"--version" => Some(Job::Version),
        _ => None,
    }
}

// `--marks` goes with every job that marks.
#[tactic(auto, unfolding(crate::specs::Orders::take_marks))]
fn take_marks(o: Order) -> Order
    ensures { result ≡ take_marks o }
{
    if 1 < most_words(o.job) {
        return o.with_marks();
    }
    o.with_fault(Fault::Superfluous)
}

// `--lemmas` goes once with every job that has a file.
#[tactic(auto, unfolding(crate::specs::Orders::take_asked))]
fn take_asked(o: Order) -> Order
    ensures { result ≡ take_asked o }
{
    if o.lemmas || most_words(o.job) == 0 {
        return o.with_fault(Fault::Superfluous);
    }
    o.with_awaiting()
}

// No other word starts with two dashes.
#[tactic(auto, unfolding(crate::specs::Orders::take_option))]
fn take_option(o: Order, word: &[u8]) -> Order
    ensures { result ≡ take_option o word.now }
{
    match word {
        b"--marks" => take_marks(o),
        b"--lemmas" => take_asked(o),
        _ => o.with_fault(Fault::Unknown),
    }
}

// A dash is standard input.
pub fn is_input(word: &[u8]) -> bool
    ensures { result ≡ is_input word.now }
{
    word == b"-".as_slice()
}

// The file's name. Only one file may be standard input.
#[tactic(auto, unfolding(crate::specs::Orders::take_file))]
fn take_file(o: Order, word: &[u8]) -> Order
    ensures { result ≡ take_file o word.now }
{
    if !is_input(word) {
        return o.with_file(o.input);
    }
    if o.input {
        return o.with_fault(Fault::TwoInputs);
    }
    o.with_file(true)
}

// The lemma file's name, which does not start with two dashes.
#[tactic(auto, unfolding(crate::specs::Orders::take_lemmas))]
fn take_lemmas(o: Order, word: &[u8]) -> Order
    ensures { result ≡ take_lemmas o word.now }
{
    if is_option(word) {
        return o.with_fault(Fault::NoLemmaFile);
    }
    if !is_input(word) {
        return o.with_lemmas(o.input);
    }
    if o.input {
        return o.with_fault(Fault::TwoInputs);
    }
    o.with_lemmas(true)
}

// The file's name, then the budget, then the space.
#[tactic(auto, unfolding(crate::specs::Orders::take_named))]
fn take_named(o: Order, word: &[u8]) -> Order
    ensures { result ≡ take_named o word.now }
{
    match o.named {
        0 => take_file(o, word),
        1 => o.with_budget(read_number(word, Order::BUDGET_MOST)),
        _ => o.with_space(read_number(word, Order::SPACE_MOST)),
    }
}

// As far as the job takes them.
#[tactic(auto, unfolding(crate::specs::Orders::take_plain))]
fn take_plain(o: Order, word: &[u8]) -> Order
    ensures { result ≡ take_plain o word.now }
{
    if o.named < most_words(o.job) {
        return take_named(o, word);
    }
    o.with_fault(Fault::Superfluous)
}

// A word after the job.
#[tactic(auto, unfolding(crate::specs::Orders::take_open))]
fn take_open(o: Order, word: &[u8]) -> Order
    ensures { result ≡ take_open o word.now }
{
    if o.awaiting {
        return take_lemmas(o, word);
    }
    if is_option(word) {
        return take_option(o, word);
    }
    take_plain(o, word)
}

// One word more. After a fault nothing changes.
#[tactic(auto, unfolding(crate::specs::Orders::take_word))]
pub fn take(o: Order, word: &[u8]) -> Order
    ensures { result ≡ take_word o word.now }
{
    if o.fault.is_some() {
        return o;
    }
    match o.job {
        None => o.take_job(job_of(word)),
        Some(_) => take_open(o, word),
    }
}

// A job of circuits has a lemma file.
#[tactic(auto, unfolding(crate::specs::Orders::lacking_lemmas))]
fn lacking_lemmas(o: Order) -> Order
    ensures { result ≡ lacking_lemmas o }
{
    if !o.lemmas && needs_lemmas(o.job) {
        return o.with_fault(Fault::NoLemmas);
    }
    o
}

// A job that has a file has one named.
#[tactic(auto, unfolding(crate::specs::Orders::lacking_file))]
fn lacking_file(o: Order) -> Order
    ensures { result ≡ lacking_file o }
{
    if o.named != 0 {
        return lacking_lemmas(o);
    }
    if most_words(o.job) != 0 {
        return o.with_fault(Fault::NoFile);
    }
    o
}

#[tactic(auto, unfolding(crate::specs::Orders::lacking))]
fn lacking(o: Order) -> Order
    ensures { result ≡ lacking o }
{
    if o.job.is_none() {
        return o.with_fault(Fault::NoJob);
    }
    if o.awaiting {
        return o.with_fault(Fault::NoLemmaFile);
    }
    lacking_file(o)
}

// After the last word: what is still missing is a fault.
#[tactic(auto, unfolding(crate::specs::Orders::finished))]
pub fn finish(o: Order) -> Order
    ensures { result ≡ finished o }
{
    if o.fault.is_none() { lacking(o) } else { o }
}

// Whether a word is the file's name.
#[tactic(auto, unfolding(crate::specs::Orders::is_file))]
pub fn is_file(o: Order, word: &[u8]) -> bool
    ensures { result ≡ is_file o word.now }
{
    o.named == 0 && take(o, word).named == 1
}

// Whether a word is the lemma file's name.
#[tactic(auto, unfolding(crate::specs::Orders::is_lemmas))]
pub fn is_lemmas(o: Order, word: &[u8]) -> bool
    ensures { result ≡ is_lemmas o word.now }
{
    !o.lemmas && take(o, word).lemmas
}
