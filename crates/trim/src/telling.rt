// An order's job on a file, and what is told of it, line by line. Answers go to standard output, up to a line that cannot be written; a
// refusal to standard error, after the sets that a listing found before it.
use crate::page;
use crate::page::{Stream, Unwritten};
use answers::{doing, lines as told_lines};
use problem::Report;
use told::Job;
use words::Order;

// A job on a file, as it was ordered.
#[derive(Clone, Copy)]
struct Telling<'a> {
    rt: &'a HostRuntime,
    order: Order,
    job: Job,
    file: &'a [u8],
}

impl<'a> Telling<'a> {
    fn head(self, r: Report, lent: &[u8]) -> Result<(), Unwritten> {
        page::told::<{ page::LINE }, _>(self.rt, Stream::Output, |page| {
            told_lines::head_text(self.order.marks, self.job, self.file, r, lent, page)
        })
    }

    fn lemma(self, position: usize) -> Result<(), Unwritten> {
        page::told::<{ page::LINE }, _>(self.rt, Stream::Output, |page| {
            told_lemmas::lemma_line(self.file, position, page)
        })
    }

    // The lemmas that are marked, by position.
    fn lemmas(self, marks: &[u8]) -> Result<(), Unwritten> {
        for (position, mark) in marks.iter().enumerate() {
            if *mark == 1 {
                self.lemma(position)?;
            }
        }
        Ok(())
    }

    fn set_line(self, number: usize, set: &[u8]) -> Result<(), Unwritten> {
        page::told::<{ page::LINE }, _>(self.rt, Stream::Output, |page| {
            told_lines::set_text(self.order.marks, self.job, number, set, page)
        })
    }

    fn set(self, number: usize, set: &[u8]) -> Result<(), Unwritten> {
        self.set_line(number, set)?;
        if self.order.marks {
            return Ok(());
        }
        self.lemmas(set)
    }

    // So many sets of k marks, one behind the other.
    fn sets(self, lent: &[u8], count: usize) -> Result<(), Unwritten> {
        let k = told_lines::k_of(self.file);
        let mut start: usize = 0;
        for told in 0..count {
            let end = text::row_end(lent.len(), start, k);
            self.set(told + 1, &lent[start..end])?;
            start = end;
        }
        Ok(())
    }

    fn answer(self, r: Report, lent: &[u8]) -> Result<(), Unwritten> {
        self.head(r, lent)?;
        self.sets(lent, told_lines::sets_told(self.job, r))
    }

    fn error(self, r: Report) -> Result<(), Unwritten> {
        let order = self.order;
        page::told::<{ page::LINE }, _>(self.rt, Stream::Errors, |page| {
            told_lines::error_text(self.job, self.file, r, order.budget, order.space, page)
        })
    }

    // The job on lent bytes, and what came of it.
    fn done(self, lent: &mut [u8]) {
        let r = doing::done(self.job, self.file, self.order.budget, lent);
        let _answered = self.answer(r, lent);
        let _refused = self.error(r);
    }
}

// As many bytes of the room are lent as the job takes; an order never takes more. The room is lent as an array: in the function that makes it
// the proof of its length did not close.
fn answer_in(rt: &HostRuntime, order: Order, file: &[u8], room: &mut [u8; 1048576]) {
    let job = doing::job_told(order.job);
    let telling = Telling {
        rt,
        order,
        job,
        file,
    };
    if let Some(lent) = room.get_mut(..doing::lent_bytes(job, order.space)) {
        telling.done(lent);
    }
}

// The job of an order that has no fault. The room is the largest space.
pub fn answer(rt: &HostRuntime, order: Order, file: &[u8]) {
    let mut room = [0u8; 1048576];
    answer_in(rt, order, file, &mut room);
}
