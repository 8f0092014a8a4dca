// The row writer: a set's marks, one byte each, into the part of the lent bytes that a row takes.
ghost use Rattle.std.specs.Prelude.{◌≡◌, ◌≤◌, length};
ghost use Rattle.meaning.specs.Calls.{written};
ghost use Rattle.sets.specs.Asks.{marks_at};

use search::Marks;

// The marks of s by position, k of them, each one byte, 1 for in and 0 for out, from the start of the part; every byte after them keeps its value.
pub fn write_row(row: &mut [u8], s: Marks, k: usize)
    requires k_bound { k ≤ 128 }
    requires k_in_bounds { k ≤ length row.old }
    ensures { row.new ≡ written 0 (marks_at k s) row.old }
{
    for d in 0..k {
        row[d] = u8::from(s.on[d]);
    }
}
