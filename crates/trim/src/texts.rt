// A circuit and its lemmas: both read whole, turned into the problem file, and that handed to the job.
use crate::page::Stream;
use crate::{arg, page, reading, telling};
use symbols::line::line_end;
use text_faults::liveness::liveness_of;
use words::{Job, Order};

// As many bytes as the problem file of a circuit may take.
const FILE: usize = 46220;

// A circuit and its lemmas, each by its name and as it was read.
#[derive(Clone, Copy)]
struct Texts<'a> {
    name: &'a [u8],
    circuit: &'a [u8],
    other: &'a [u8],
    lemmas: &'a [u8],
}

// Whether a refusal is 13 of the circuit, whatever the lemmas are.
fn is_of_circuit(number: u32, circuit: &[u8]) -> bool {
    number == 13 && circuits::check(circuit, b"").number == 13
}

// Whether a line is there to its newline.
fn is_whole(text: &[u8], place: usize) -> bool {
    place < text.len() && line_end(text, place) < text.len()
}

// The job on the problem file; or the file itself, where that is asked.
fn work_file(rt: &HostRuntime, order: Order, file: &[u8]) {
    match order.job {
        Some(Job::Problem) => {
            let _shown = page::show(rt, Stream::Output, file, file.len());
        }
        Some(Job::Check | Job::Largest | Job::One | Job::List) => telling::answer(rt, order, file),
        None | Some(Job::Help | Job::Version) => {}
    }
}

impl<'a> Texts<'a> {
    fn tell_refusal(self, rt: &HostRuntime, number: u32, place: usize) {
        let first = is_of_circuit(number, self.circuit);
        let _shown = page::told::<{ page::LINE }, _>(rt, Stream::Errors, |page| {
            told_texts::text_refusal(
                self.name,
                self.circuit,
                self.other,
                self.lemmas,
                number,
                place,
                first,
                page,
            )
        });
    }

    // Texts that were read whole.
    fn work_whole(self, rt: &HostRuntime, order: Order) {
        let mut file = page::room::<FILE>();
        let r = circuits::problem(self.circuit, self.lemmas, &mut file);
        if r.number != 0 {
            self.tell_refusal(rt, r.number, r.place);
            return;
        }
        if let Some(file) = file.get(..r.rows) {
            work_file(rt, order, file);
        }
    }

    // Texts that are too long, where no line is at fault: 15 by the circuit's header, or 14.
    fn tell_long(self, rt: &HostRuntime) {
        let found = liveness_of(self.circuit);
        let number = if 0 < found.justice || 0 < found.fairness {
            15
        } else {
            14
        };
        self.tell_refusal(rt, number, 0);
    }

    // Lemmas that were not read whole: 13 of the circuit or of a line that is there, 15 or 14.
    fn work_long(self, rt: &HostRuntime) {
        let r = circuits::check(self.circuit, self.lemmas);
        if r.number == 13 && (is_of_circuit(13, self.circuit) || is_whole(self.lemmas, r.place)) {
            self.tell_refusal(rt, 13, r.place);
            return;
        }
        self.tell_long(rt);
    }

    // A circuit that was not read whole: 13 of a line that is there, 15 or 14.
    fn work_longer(self, rt: &HostRuntime) {
        let r = circuits::check(self.circuit, b"");
        if r.number == 13 && is_whole(self.circuit, r.place) {
            self.tell_refusal(rt, 13, r.place);
            return;
        }
        self.tell_long(rt);
    }

    // A text that fills its room was perhaps not read whole. It is over the limit in any case, and what is behind the room is not judged.
    fn work(self, rt: &HostRuntime, order: Order) {
        if 1048576 <= self.circuit.len() {
            self.work_longer(rt);
            return;
        }
        if 1048576 <= self.lemmas.len() {
            self.work_long(rt);
            return;
        }
        self.work_whole(rt, order);
    }
}

// Each room is lent as an array: in the function that makes it the proof of its length did not close.
fn read_lemmas(
    rt: &HostRuntime,
    order: Order,
    name: &[u8],
    circuit: &[u8],
    other: &[u8],
    room: &mut [u8; 1048576],
) {
    if let Some(lemmas) = reading::read_named(rt, other, room) {
        Texts {
            name,
            circuit,
            other,
            lemmas,
        }
        .work(rt, order);
    }
}

fn work_lemmas(rt: &HostRuntime, order: Order, name: &[u8], circuit: &[u8], other: &[u8]) {
    let mut room = [0u8; 1048576];
    read_lemmas(rt, order, name, circuit, other, &mut room);
}

fn read_circuit(
    rt: &HostRuntime,
    order: Order,
    name: &[u8],
    other: &[u8],
    room: &mut [u8; 1048576],
) {
    if let Some(circuit) = reading::read_named(rt, name, room) {
        work_lemmas(rt, order, name, circuit, other);
    }
}

// Each text has many times the room that it may have, so that a line at fault in one that is too long is told before its length, as the library
// does.
fn work_named(rt: &HostRuntime, order: Order, name: &[u8], other: &[u8]) {
    let mut room = [0u8; 1048576];
    read_circuit(rt, order, name, other, &mut room);
}

// The job on the circuit and the lemmas that two words name.
pub fn work(rt: &HostRuntime, order: Order, i: usize, j: usize) {
    let mut buf = page::room::<{ reading::WORD }>();
    let name = arg(rt, i, &mut buf);
    let mut more = page::room::<{ reading::WORD }>();
    let other = arg(rt, j, &mut more);
    work_named(rt, order, name, other);
}
