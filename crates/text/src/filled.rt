// A form with numbers filled in.
ghost use Rattle.std.specs.Prelude.{slice_index};
ghost use Rattle.text.specs.Pages.{Puts};
ghost use Rattle.text.specs.Filled.{filled};

use crate::page::Page;

impl<'a> Page<'a> {
    // A form with numbers filled in: each `#` of the form stands for the next of the first three numbers, and for 0 where there is none.
    pub fn put_filled(&mut self, form: &[u8], numbers: &[u64])
        ensures { Puts (filled form.now (slice_index numbers.now 0) (slice_index numbers.now 1) (slice_index numbers.now 2)) self.old self.new }
    {
        let mut left = numbers[..numbers.len().min(3)].iter();
        for byte in form {
            if *byte == b'#' {
                self.put_number(left.next().copied().unwrap_or(0));
            } else {
                self.put(*byte);
            }
        }
    }
}
