// A section: so many lines of a form, one after another.
ghost use Rattle.std.specs.Prelude.{◌≡◌, ◌++◌, ℕ, ◌≤◌, length};
ghost use Rattle.meaning.specs.CircuitText.{section};
ghost use Rattle.lines.specs.Numbers.{worth, huge, capped};
ghost use Rattle.sections.specs.Lists.{Placed, variables_of};
ghost use Rattle.sections.specs.Rows.{form_of};
ghost use Rattle.sections.specs.Reading.{ended_as, own_count};

use crate::find::Lines;
use crate::line::{Before, Form, line_of};
use lines::fault::Fault;
use lines::number::Number;

// How many lines of its own section define variables before line i.
fn own_count(defines: bool, i: usize) -> usize
    ensures { result ≡ own_count defines i }
{
    if defines { i } else { 0 }
}

// So many lines from a place on, however many more than a word holds: where the next one starts, or the first at fault. What is defined before
// are some inputs and some latches.
pub fn read_section(
    text: &[u8],
    at: usize,
    count: usize,
    form: Form,
    judged: bool,
    m: &Number,
    inputs: Lines,
    latches: Lines,
) -> Result<usize, Fault>
    requires at_in_bounds { at ≤ length text.now }
    requires le_width { 1 ≤ form.width }
    requires width_bound { form.width ≤ 3 }
    requires count_le_huge { count ≤ huge }
    requires placed { Placed text.now inputs }
    requires placed_2 { Placed text.now latches }
    ensures { (n : ℕ) → count ≡ capped n → result ≡ ended_as (section (form_of form) judged (worth m.now) text.now n (variables_of text.now inputs ++ variables_of text.now latches) at) }
{
    let mut p = at;
    for i in 0..count {
        let own = own_count(form.defines, i);
        let before = Before {
            inputs,
            latches,
            own: Lines { at, count: own },
        };
        p = line_of(text, p, form, judged, m, before).ok_or(Fault { at: p })?;
    }
    Ok(p)
}
