// The listing program: reads a problem file on standard input and prints its listing.
#![tactic(auto)]

ghost use Rattle.std.specs.Prelude.{◌≤◌, length};
ghost use Rattle.text.specs.Page.{Holds};
ghost use Rattle.text.specs.Listing.{program_text};

use std::io::{Read, Write};

// The listing with budget 1,000,000, as text on a page.
fn listed(file: &[u8], rows: &mut [u8], page: &mut [u8]) -> usize
    ensures { Holds page.old (program_text file.now 1000000 rows.old) page.new result }
{
    let k = problem::check(file).k;
    let report = jobs::list_all(file, 1000000, rows);
    text::listing_text(report, k, rows, page)
}

// Reads until buf is full, the input ends or a read fails, and answers how many bytes that were.
fn read_full<R: Read>(from: &mut R, buf: &mut [u8]) -> usize
    ensures { result ≤ length buf.new }
{
    let mut done: usize = 0;
    // no `for`: done goes on by as many bytes as a read gave
    while done < buf.len() {
        match from.read(&mut buf[done..]) {
            Ok(0) => return done,
            Ok(n) => done += n,
            Err(_) => return done,
        }
    }
    done
}

// The first bytes of a page. Every listing of 65,536 bytes fits the page of `main`.
fn show(rt: &HostRuntime, page: &[u8], n: usize) {
    if n <= page.len() {
        let _written = rt.stdout().write_all(&page[..n]);
    }
}

// One byte more than a file may have, so that a longer one is refused and not cut; 65,536 bytes of rows; and twice that and a line for the
// text, which has a digit for each of these bytes and a line's end for each row.
fn main(rt: HostRuntime) {
    let mut file = [0u8; 65537];
    let n = read_full(&mut rt.stdin(), &mut file);
    let mut rows = [0u8; 65536];
    let mut page = [0u8; 131200];
    let end = listed(&file[..n], &mut rows, &mut page);
    show(&rt, &page, end);
}
