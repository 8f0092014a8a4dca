// What the program tells a person: texts alone, each on a page that the caller lends. Each answers how long the text is; where it doesn't
// fit, one more than the page has. Every text is that of any bytes, any report and any number: a report need not belong to the file, and
// bytes past the file's end read as 0.
#![tactic(auto)]

mod answers;
mod refusals;

pub use answers::{Job, answer_line, count_marks, marks_line, set_line};
pub use refusals::refusal_line;
