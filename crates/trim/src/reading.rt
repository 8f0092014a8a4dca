// A file: opened, and read whole. A problem file is handed to the job.
ghost use Rattle.std.specs.Prelude.{◌≡◌, ◌≤◌, length, IfOk};

use crate::page::Stream;
use crate::{arg, page, telling};
use std::fs::File;
use std::io;
use std::io::Read;
use words::Order;

// One byte more than a file may have, so that a longer one is refused and not cut.
const FILE: usize = 65537;

// Room for a word: a longer one reads as an empty one.
pub const WORD: usize = 65536;

// Reads once, and answers how many bytes that were.
fn read_once<R: Read>(from: &mut R, buf: &mut [u8]) -> io::Result<usize>
    ensures { IfOk result (λ n. n ≤ length buf.new) }
{
    from.read(buf)
}

// Reads until buf is full or the input ends, and answers how many bytes that were.
fn read_all<R: Read>(from: &mut R, buf: &mut [u8]) -> io::Result<usize>
    ensures { IfOk result (λ n. n ≤ length buf.new) }
{
    let mut done: usize = 0;
    // A read gives as many bytes as it likes: `done` jumps, and counts no turns.
    while done < buf.len() {
        let n = read_once(from, &mut buf[done..])?;
        if n == 0 {
            return Ok(done);
        }
        done += n;
    }
    Ok(done)
}

// Reads a file that is open. What fails is told, and then there is no text.
fn read_told<'a, R: Read>(
    rt: &HostRuntime,
    name: &[u8],
    from: &mut R,
    buf: &'a mut [u8],
) -> Option<&'a [u8]> {
    match read_all(from, buf) {
        Ok(n) => Some(&buf[..n]),
        Err(error) => {
            page::fail(rt, &error, |page| usage::not_read(name, page));
            None
        }
    }
}

// Opens the file of a name. The system's names are bytes and the library's are text: a name that is no text names no file here.
fn open(rt: &HostRuntime, name: &[u8]) -> io::Result<File> {
    match str::from_utf8(name) {
        Ok(text) => File::open(rt, text),
        Err(_) => Err(io::Error::from(io::ErrorKind::InvalidFilename)),
    }
}

// Reads the file of a name; a dash is standard input. What fails is told, and then there is no text.
pub fn read_named<'a>(rt: &HostRuntime, name: &[u8], buf: &'a mut [u8]) -> Option<&'a [u8]> {
    if words::is_input(name) {
        return read_told(rt, name, &mut rt.stdin(), buf);
    }
    match open(rt, name) {
        Ok(mut file) => read_told(rt, name, &mut file, buf),
        Err(error) => {
            page::fail(rt, &error, |page| usage::not_opened(name, page));
            None
        }
    }
}

// A circuit is no problem file.
fn work_file(rt: &HostRuntime, order: Order, name: &[u8], file: &[u8]) {
    if spelling::is_circuit(file) {
        let _shown = page::told::<{ page::LINE }, _>(rt, Stream::Errors, |page| {
            usage::circuit_alone(name, page)
        });
        return;
    }
    telling::answer(rt, order, file);
}

// The job on the problem file that a word names.
pub fn work(rt: &HostRuntime, order: Order, i: usize) {
    let mut buf = page::room::<WORD>();
    let name = arg(rt, i, &mut buf);
    let mut room = page::room::<FILE>();
    if let Some(file) = read_named(rt, name, &mut room) {
        work_file(rt, order, name, file);
    }
}
