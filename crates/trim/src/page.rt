// Pages: a text is written on one, and its first bytes go out.

ghost use Rattle.std.specs.Prelude.{◌≡◌, ◌≤◌, ◌<◌, ◌^◌, length};

use std::io;
use std::io::Write;

// A line that could not be written, which was told.
#[derive(Clone, Copy)]
pub struct Unwritten;

// Where a page goes: answers to standard output, all else to standard error.
#[derive(Clone, Copy)]
pub enum Stream {
    Output,
    Errors,
}

// How long a line may be, and the page of help.
pub const LINE: usize = 1024;

pub const HELP: usize = 4096;

// Room for so many bytes. The `ensures` gives only the length, which lending the array as a slice needs.
pub fn room<const N: usize>() -> [u8; N]
    ensures { N ≡ length result }
{
    [0; N]
}

fn write_to(rt: &HostRuntime, stream: Stream, text: &[u8]) -> io::Result<()> {
    match stream {
        Stream::Output => rt.stdout().write_all(text),
        Stream::Errors => rt.stderr().write_all(text),
    }
}

// Where the system's own words for what failed end: the number that stands behind them is not told.
fn words_end(text: &[u8]) -> usize
    ensures { result ≤ length text.now }
{
    for i in 0..text.len() {
        if text[i] == 0 || text[i..].starts_with(b" (os error ") {
            return i;
        }
    }
    text.len()
}

// A line to standard error: what failed, a colon, and the system's own words for it. Where that cannot be written either, nothing is told.
fn tell(rt: &HostRuntime, what: &[u8], error: &io::Error) {
    let mut text = [0u8; 256];
    let mut rest: &mut [u8] = &mut text;
    let _formed = write!(rest, "{error}");
    let end = words_end(&text);
    let _what = write_to(rt, Stream::Errors, what);
    let _colon = write_to(rt, Stream::Errors, b": ");
    let _words = write_to(rt, Stream::Errors, &text[..end]);
    let _end = write_to(rt, Stream::Errors, b"\n");
}

// The first bytes of a page; every line fits the page of `line`. Where they cannot be written that is told.
pub fn show(rt: &HostRuntime, stream: Stream, page: &[u8], n: usize) -> Result<(), Unwritten> {
    let text = page.get(..n).ok_or(Unwritten)?;
    write_to(rt, stream, text).map_err(|error| {
        tell(rt, b"trim: cannot write", &error);
        Unwritten
    })
}

// A text that is written on a page of its own, and shown.
pub fn told<const N: usize, F: FnOnce(&mut [u8]) -> usize>(
    rt: &HostRuntime,
    stream: Stream,
    write: F,
) -> Result<(), Unwritten>
    requires callable { (page : _) → F.pre write page }
    requires small { N < 2 ^ 63 }
{
    let mut page = room::<N>();
    let end = write(&mut page);
    show(rt, stream, &page, end)
}

// The start of a line, to standard error, and the system's own words for what failed.
pub fn fail<F: FnOnce(&mut [u8]) -> usize>(rt: &HostRuntime, error: &io::Error, write: F)
    requires { (page : _) → F.pre write page }
{
    let mut page = room::<LINE>();
    let end = write(&mut page);
    if let Some(text) = page.get(..end) {
        tell(rt, text, error);
    }
}
