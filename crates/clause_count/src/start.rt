// Numbers of a line as far as a word holds them, and where a latch starts.
ghost use Rattle.std.specs.Prelude.{◌≡◌, suc, get_or};
ghost use Rattle.meaning.specs.CircuitText.{numbers_at};
ghost use Rattle.lines.specs.Numbers.{capped};
ghost use Rattle.clause_count.specs.Rows.{RowAt};
ghost use Rattle.clause_count.specs.Start.{start_in};

use lines::line::line_past;
use sections::nth::nth;

// Number j, counted from 0, of a line.
pub fn value_at(text: &[u8], line: usize, j: usize) -> usize
    requires { RowAt text.now (suc j) line }
    ensures { result ≡ capped (get_or (numbers_at text.now line) j 0) }
{
    nth(text, line, j).value
}

// Where the latch of a line starts: at 0 or 1, its third number; none where it is free to start at either; at 0 where there is no third number.
pub fn start_at(text: &[u8], line: usize) -> Option<bool>
    requires { RowAt text.now 2 line }
    ensures { result ≡ start_in (numbers_at text.now line) }
{
    if line_past(text, line, 2).is_some() {
        return Some(false);
    }
    match value_at(text, line, 2) {
        0 => Some(false),
        1 => Some(true),
        _ => None,
    }
}
