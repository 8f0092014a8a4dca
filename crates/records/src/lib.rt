// Records of a problem file, written one behind another into bytes that the caller lends: two-byte numbers, a record's head, and literals.
#![tactic(auto)]

ghost use Rattle.std.specs.Prelude.{◌+◌, ◌<◌, ◌≤◌, ◌++◌, length};
ghost use Rattle.meaning.specs.Built.{literal_if};
ghost use Rattle.meaning.specs.Filed.{two, literal_bytes};
ghost use Rattle.records.specs.Puts.{Fresh, Puts};

// Where they are written: the slice that is lent, and where the next of them goes.
#[derive(Drop)]
pub struct Records<'a> {
    pub bytes: &'a mut [u8],
    pub end: usize,
}

impl<'a> Records<'a> {
    // From the start of a slice on.
    pub fn new(bytes: &'a mut [u8]) -> Records<'a>
        ensures { Fresh bytes.entry result }
    {
        Records { bytes, end: 0 }
    }

    // A number in two bytes, little-endian.
    pub fn put_two(&mut self, value: usize)
        requires at_in_bounds { self.old.end + 2 ≤ length self.old.bytes.now }
        requires value_bound { value < 65536 }
        ensures { Puts (two value) self.old self.new }
    {
        self.bytes[self.end] = (value % 256) as u8;
        self.bytes[self.end + 1] = (value / 256) as u8;
        self.end += 2;
    }

    // What a record starts with: the length of its body, and its kind.
    pub fn put_head(&mut self, len: usize, kind: usize)
        requires at_in_bounds { self.old.end + 4 ≤ length self.old.bytes.now }
        requires len_bound { len < 65536 }
        requires kind_bound { kind < 65536 }
        ensures { Puts (two len ++ two kind) self.old self.new }
    {
        self.put_two(len);
        self.put_two(kind);
    }

    // A literal: its variable, or that taken from 65536 where it is negative.
    pub fn put_literal(&mut self, negative: bool, variable: usize)
        requires at_in_bounds { self.old.end + 2 ≤ length self.old.bytes.now }
        requires le_variable { 1 ≤ variable }
        requires variable_bound { variable ≤ 32767 }
        ensures { Puts (literal_bytes (literal_if negative variable)) self.old self.new }
    {
        if negative {
            self.put_two(65536 - variable);
        } else {
            self.put_two(variable);
        }
    }
}
