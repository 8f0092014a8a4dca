// What the listing program prints.
ghost use Rattle.std.specs.Prelude.{◌+◌, ◌≤◌, ◌-◌, min, ◌≡◌, [], ◌∷◌, ◌++◌, map, length};
ghost use Rattle.problem.specs.Answers.{report_of};
ghost use Rattle.text.specs.Page.{Holds};
ghost use Rattle.text.specs.Pages.{Puts};
ghost use Rattle.text.specs.Listing.{first_line, row_lines, listed, refused, listing_text, mark_digit};

use crate::page::Page;
use problem::Report;

// A word and two numbers, on a line.
fn put_line(page: &mut Page<'_>, word: &[u8], a: u64, b: u64)
    ensures { Puts (first_line word.now a b) page.old page.new }
{
    page.put_all(word);
    page.put_filled(b" # #\n", &[a, b]);
}

// A row in digits, and its line's end.
pub fn put_row(page: &mut Page<'_>, row: &[u8])
    ensures { Puts (map mark_digit row.now ++ (10 ∷ [])) page.old page.new }
{
    for mark in row {
        page.put(b'0' + *mark % 10);
    }
    page.put(b'\n');
}

// Where a row ends that starts at a place: k bytes on, or at the end.
pub fn row_end(len: usize, start: usize, k: usize) -> usize
    requires { start ≤ len }
    ensures { result ≡ start + min k (len - start) }
{
    start + k.min(len - start)
}

// So many rows of k marks, each on its own line.
fn put_rows(page: &mut Page<'_>, rows: usize, k: usize, marks: &[u8])
    ensures { Puts (row_lines rows k marks.now) page.old page.new }
{
    let mut start: usize = 0;
    for _done in 0..rows {
        let end = row_end(marks.len(), start, k);
        put_row(page, &marks[start..end]);
        start = end;
    }
}

// A word, the rows, the decisions; then each row.
fn put_listed(page: &mut Page<'_>, word: &[u8], r: Report, k: usize, marks: &[u8])
    ensures { Puts (listed word.now (report_of r) k marks.now) page.old page.new }
{
    put_line(page, word, r.rows as u64, r.decisions as u64);
    put_rows(page, r.rows, k, marks);
}

// The listing program's text: a report of the listing, k of its file, and the lent bytes after it. Answers how long the text is; where
// it doesn't fit, one more than the page has.
pub fn listing_text(r: Report, k: usize, marks: &[u8], out: &mut [u8]) -> usize
    ensures { Holds out.old (listing_text (report_of r) k marks.now) out.new result }
{
    let mut page = Page::new(out);
    // A report's number is the C interface's.
    match r.number {
        0 => put_listed(&mut page, b"complete", r, k, marks),
        10 => put_listed(&mut page, b"spent", r, k, marks),
        11 => put_listed(&mut page, b"none", r, k, marks),
        12 => put_listed(&mut page, b"room", r, k, marks),
        number => put_line(&mut page, b"bad", number as u64, r.place as u64),
    }
    page.end
}
