// Writing on a page, part after part.
// Not `write!` of `Display` values: std says what it wrote only where it gives Ok, which nothing promises; a page takes every text.
ghost use Rattle.std.specs.Prelude.{[], ◌∷◌};
ghost use Rattle.text.specs.Pages.{Fresh, Puts};
ghost use Rattle.text.specs.Numbers.{decimal};

// A page, a slice that the caller lends, and how many bytes of the text stand there; once a byte doesn't fit, that is one more than the
// page has, and stays so.
#[derive(Drop)]
pub struct Page<'a> {
    pub bytes: &'a mut [u8],
    pub end: usize,
}

impl<'a> Page<'a> {
    // Nothing is written yet.
    pub fn new(bytes: &'a mut [u8]) -> Page<'a>
        ensures { Fresh bytes.entry result }
    {
        Page { bytes, end: 0 }
    }

    // One byte.
    pub fn put(&mut self, byte: u8)
        ensures { Puts (byte ∷ []) self.old self.new }
    {
        if self.end < self.bytes.len() {
            self.bytes[self.end] = byte;
            self.end += 1;
        } else {
            self.end = self.bytes.len() + 1;
        }
    }

    // All bytes of a slice.
    pub fn put_all(&mut self, bytes: &[u8])
        ensures { Puts bytes.now self.old self.new }
    {
        for byte in bytes {
            self.put(*byte);
        }
    }

    // A number in decimal.
    pub fn put_number(&mut self, n: u64)
        ensures { Puts (decimal n) self.old self.new }
    {
        if n < 10 {
            return self.put(b'0' + n as u8);
        }
        self.put_number(n / 10);
        self.put(b'0' + (n % 10) as u8);
    }
}
