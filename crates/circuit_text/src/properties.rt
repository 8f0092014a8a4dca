// The lines between latches and gates: outputs, bad literals, constraints, the counts of the justice properties, their literals, fairness.
ghost use Rattle.std.specs.Prelude.{◌≡◌, [], ℕ, ◌+◌, ◌≤◌, length};
ghost use Rattle.meaning.specs.CircuitText.{section, total};
ghost use Rattle.lines.specs.Numbers.{worth, huge, capped};
ghost use Rattle.sections.specs.Rows.{form_of};
ghost use Rattle.sections.specs.Reading.{ended_as};
ghost use Rattle.sections.specs.Whole.{RowsAt, lines_of};
ghost use Rattle.circuit_text.specs.Header.{Parts};
ghost use Rattle.circuit_text.specs.Stages.{word_most};
ghost use Rattle.circuit_text.specs.Properties.{PropertiesRead};

use crate::header::Header;
use lines::fault::Fault;
use lines::line::next_line;
use lines::number::{Number, number_at};
use sections::circuit::Properties;
use sections::find::Lines;
use sections::line::Form;
use sections::read::read_section;

// So many lines before which nothing is defined.
fn plain_lines(
    text: &[u8],
    form: Form,
    m: &Number,
    judged: bool,
    at: usize,
    count: usize,
) -> Result<usize, Fault>
    requires at_in_bounds { at ≤ length text.now }
    requires le_width { 1 ≤ form.width }
    requires width_bound { form.width ≤ 3 }
    requires count_le_huge { count ≤ huge }
    ensures { (n : ℕ) → count ≡ capped n → result ≡ ended_as (section (form_of form) judged (worth m.now) text.now n [] at) }
{
    let none = Lines { at: 0, count: 0 };
    read_section(text, at, count, form, judged, m, none, none)
}

// Two values together: what is huge stays huge.
fn sum(a: usize, b: usize) -> usize
    requires a_le_huge { a ≤ huge }
    requires b_le_huge { b ≤ huge }
    ensures { result ≡ capped (a + b) }
{
    if Number::HUGE - a <= b {
        return Number::HUGE;
    }
    a + b
}

// All the counts together, huge where they are more than a word holds.
fn total(text: &[u8], counts: Lines) -> usize
    requires { RowsAt text.now 1 counts }
    ensures { result ≡ capped (total (lines_of text.now counts)) }
{
    let mut p = counts.at;
    let mut all: usize = 0;
    for _ in 0..counts.count {
        let x = number_at(text, p);
        all = sum(all, x.value);
        p = next_line(text, p);
    }
    all
}

// From the line after the latches on: where they stand and where the next line starts, or the first line at fault.
pub fn read_properties(
    text: &[u8],
    h: &Header,
    judged: bool,
    at: usize,
) -> Result<(Properties, usize), Fault>
    requires parts { Parts text.now h.now }
    requires text_len_bound { length text.now ≤ word_most }
    requires at_in_bounds { at ≤ length text.now }
    ensures { PropertiesRead text.now h.now judged at result }
{
    let first = plain_lines(text, Form::USED, &h.m, judged, at, h.o.value)?;
    let second = plain_lines(text, Form::USED, &h.m, judged, first, h.b.value)?;
    let third = plain_lines(text, Form::USED, &h.m, judged, second, h.c.value)?;
    let fourth = plain_lines(text, Form::COUNT, &h.m, judged, third, h.j.value)?;
    let counts = Lines {
        at: third,
        count: h.j.value,
    };
    let literals = total(text, counts);
    let fifth = plain_lines(text, Form::USED, &h.m, judged, fourth, literals)?;
    let sixth = plain_lines(text, Form::USED, &h.m, judged, fifth, h.f.value)?;
    let properties = Properties {
        outputs: Lines {
            at,
            count: h.o.value,
        },
        bads: Lines {
            at: first,
            count: h.b.value,
        },
        constraints: Lines {
            at: second,
            count: h.c.value,
        },
        counts,
        justice: Lines {
            at: fourth,
            count: literals,
        },
        fairness: Lines {
            at: fifth,
            count: h.f.value,
        },
    };
    Ok((properties, sixth))
}
