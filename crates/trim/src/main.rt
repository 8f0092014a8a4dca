// The program `trim`: it takes its words one after another, does the job that they order, and tells what came of it. Answers go to standard
// output; refusals, and what is wrong with the words, to standard error.
#![tactic(auto)]

mod page;
mod reading;
mod telling;
mod texts;

ghost use Rattle.std.specs.Prelude.{◌≤◌, length};

use page::Stream;
use std::env::FillError;
use std::rt::Env;
use words::{Job, Order};

// The order of the words, which of them name the file and the lemma file, and which was the last that was read.
#[derive(Clone, Copy)]
struct Given {
    order: Order,
    file: Option<usize>,
    lemmas: Option<usize>,
    last: usize,
}

// How many words there are, the program's own name among them.
fn arg_count(rt: &HostRuntime) -> usize {
    let mut buf = [0u8; 1];
    for i in 0..usize::MAX {
        if let Err(FillError::NotPresent) = rt.arg(i, &mut buf) {
            return i;
        }
    }
    usize::MAX
}

// A word, read into buf: an empty one where it is missing or longer than buf, and no place takes that.
pub fn arg<'a>(rt: &HostRuntime, i: usize, buf: &'a mut [u8]) -> &'a [u8]
    ensures { length result.now ≤ length buf.old }
{
    match rt.arg(i, buf) {
        Ok(n) => &buf[..n],
        Err(_) => &[],
    }
}

// The words in turn, up to the first that is at fault. Word 0 is the program's own name.
fn read_words(rt: &HostRuntime) -> Given {
    let mut buf = page::room::<{ reading::WORD }>();
    let mut order = words::begin();
    let mut file = None;
    let mut lemmas = None;
    let mut last = arg_count(rt);
    for i in 1..last {
        let word = arg(rt, i, &mut buf);
        if words::is_file(order, word) {
            file = Some(i);
        }
        if words::is_lemmas(order, word) {
            lemmas = Some(i);
        }
        order = words::take(order, word);
        if order.fault.is_some() {
            last = i;
            break;
        }
    }
    Given {
        order: words::finish(order),
        file,
        lemmas,
        last,
    }
}

fn tell_fault(rt: &HostRuntime, order: Order, i: usize) {
    let mut buf = page::room::<{ reading::WORD }>();
    let word = arg(rt, i, &mut buf);
    let _shown = page::told::<{ page::LINE }, _>(
        rt,
        Stream::Errors,
        |page| usage::fault_line(order, word, page),
    );
}

fn tell_help(rt: &HostRuntime) {
    let _shown = page::told::<{ page::HELP }, _>(rt, Stream::Output, |page| usage::help_text(page));
}

fn tell_version(rt: &HostRuntime) {
    let _shown = page::told::<{ page::LINE }, _>(
        rt,
        Stream::Output,
        |page| usage::version_line(page),
    );
}

// The job on a problem file, or on a circuit and its lemmas. Apart from `main`, so that help and a word at fault take none of the mebibytes of stack
// that the texts are read into.
#[inline(never)]
fn work(rt: &HostRuntime, g: Given) {
    match (g.file, g.lemmas) {
        (Some(file), Some(lemmas)) => texts::work(rt, g.order, file, lemmas),
        (Some(file), None) => reading::work(rt, g.order, file),
        (None, _) => {}
    }
}

fn main(rt: HostRuntime) {
    let rt = &rt;
    let g = read_words(rt);
    if g.order.fault.is_some() {
        tell_fault(rt, g.order, g.last);
        return;
    }
    match g.order.job {
        None => {}
        Some(Job::Help) => tell_help(rt),
        Some(Job::Version) => tell_version(rt),
        Some(Job::Check | Job::Largest | Job::One | Job::List | Job::Problem) => work(rt, g),
    }
}
