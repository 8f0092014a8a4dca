// What stands at a place of a file, and the record around it. Bytes past the file's end read as 0.
ghost use Rattle.std.specs.Prelude.{◌≡◌, cond, ◌+◌, ◌-◌, ◌<◌, ◌≤◌, length, eqb};
ghost use Rattle.meaning.specs.File.{two_at};
ghost use Rattle.faults.specs.Places.{around, start_around, kind_there};

// Where a record starts, and its position among the records of its kind.
#[derive(Clone, Copy)]
pub struct Spot {
    pub at: usize,
    pub position: usize,
}

// A record's kind, which is whatever number stands in its head, and its position among the records of that kind.
#[derive(Clone, Copy)]
pub struct Found {
    pub kind: usize,
    pub position: usize,
}

// Two bytes at a place.
pub fn word_at(file: &[u8], at: usize) -> usize
    ensures { (result ≡ two_at file.now at) × (result < 65536) }
{
    if file.len() <= at {
        return 0;
    }
    if file.len() - at == 1 {
        return file[at] as usize;
    }
    format::two_at(file, at)
}

// Two bytes so far behind a place.
pub fn word_on(file: &[u8], at: usize, by: usize) -> usize
    ensures { (result ≡ two_at file.now (at + by)) × (result < 65536) }
{
    if file.len() <= at || file.len() - at <= by {
        return 0;
    }
    word_at(file, at + by)
}

// How many bytes are left from a place on.
pub fn left_from(file: &[u8], at: usize) -> usize
    ensures { result ≡ length file.now - at }
{
    file.len().saturating_sub(at)
}

// The position of a record behind another of that position: the next, or 0 where the kind is another.
fn position_after(file: &[u8], at: usize, next: usize, position: usize) -> usize
    requires { position < length file.now }
    ensures { (result ≡ cond (eqb (kind_there file.now next) (kind_there file.now at)) (position + 1) 0) × (result ≤ position + 1) }
{
    if word_on(file, next, 2) == word_on(file, at, 2) {
        return position + 1;
    }
    0
}

// Where the record around a place starts. A file has fewer records than it has bytes.
fn start_around(file: &[u8], place: usize) -> Spot
    ensures { result ≡ start_around file.now place }
{
    let mut s = Spot { at: 0, position: 0 };
    for _passed in 0..file.len() {
        if file.len() <= s.at {
            return s;
        }
        let next = s.at + 4 + word_at(file, s.at);
        if place < next {
            return s;
        }
        s = Spot {
            at: next,
            position: position_after(file, s.at, next, s.position),
        };
    }
    s
}

// The record around a place.
pub fn around(file: &[u8], place: usize) -> Found
    ensures { result ≡ around file.now place }
{
    let s = start_around(file, place);
    Found {
        kind: word_on(file, s.at, 2),
        position: s.position,
    }
}
