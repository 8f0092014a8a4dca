// One line of a section: so many numbers, in their range by the header; the first of a line that defines a variable is even and new; a latch
// line of edition 1.9 may end with a start value.
ghost use Rattle.std.specs.Prelude.{◌≡◌, true, cond, ◌++◌, ◌+◌, ◌<◌, ◌≤◌, length, IfSome, Some, None};
ghost use Rattle.meaning.specs.Clauses.{all};
ghost use Rattle.meaning.specs.Lines.{ended, line_at, next_line, of_numbers};
ghost use Rattle.meaning.specs.Circuit.{var};
ghost use Rattle.meaning.specs.Built.{among};
ghost use Rattle.meaning.specs.CircuitText.{used_right, defined_right, literals_right, start_right, line_right, numbers_at};
ghost use Rattle.lines.specs.Numbers.{worth};
ghost use Rattle.sections.specs.Lists.{Placed};
ghost use Rattle.sections.specs.Rows.{before_of, BeforePlaced, numbers_after, Rest, form_of};
ghost use Rattle.sections.specs.LineOf.{WidthIs};

use crate::find::{Lines, defines};
use crate::nth::nth;
use lines::compare::is_sum;
use lines::line::{line_past, next_line};
use lines::literal::{is_even, used_right};
use lines::number::{Number, number_at};

// How many numbers a line has; whether the first defines a variable; whether a start value may follow them; whether it is a count and no
// literal. No enum: `line_of` and `read_section` promise their answer for every form, and an enum of the five below would ask for one of them.
#[derive(Clone, Copy)]
pub struct Form {
    pub width: usize,
    pub defines: bool,
    pub starts: bool,
    pub counts: bool,
}

impl Form {
    // An input.
    pub const INPUT: Form = Form {
        width: 1,
        defines: true,
        starts: false,
        counts: false,
    };

    // A latch and its next literal, as in the edition of 2007: no start value follows.
    pub const LATCH: Form = Form {
        width: 2,
        defines: true,
        starts: false,
        counts: false,
    };

    // A gate and its two literals.
    pub const GATE: Form = Form {
        width: 3,
        defines: true,
        starts: false,
        counts: false,
    };

    // A literal that is used.
    pub const USED: Form = Form {
        width: 1,
        defines: false,
        starts: false,
        counts: false,
    };

    // A count.
    pub const COUNT: Form = Form {
        width: 1,
        defines: false,
        starts: false,
        counts: true,
    };
}

// The lines that define variables before a line: inputs, latches, and those of its own section.
#[derive(Clone, Copy)]
pub struct Before {
    pub inputs: Lines,
    pub latches: Lines,
    pub own: Lines,
}

// Whether a variable is defined before.
fn seen(text: &[u8], before: Before, l: &Number) -> bool
    requires { BeforePlaced text.now before }
    ensures { result ≡ among (var (worth l.now)) (before_of text.now before) }
{
    defines(text, before.inputs, l)
        || defines(text, before.latches, l)
        || defines(text, before.own, l)
}

// A literal that is defined is even, 2 to 2M, and its variable is new, as far as that is judged.
fn defined_right(text: &[u8], judged: bool, m: &Number, before: Before, l: &Number) -> bool
    requires before_placed { BeforePlaced text.now before }
    requires l_has_digits { 0 < length l.now.digits.now }
    ensures { result ≡ defined_right judged (worth m.now) (before_of text.now before) (worth l.now) }
{
    if !is_even(l) {
        return false;
    }
    if l.value < 2 {
        return false;
    }
    if !used_right(m, l) {
        return false;
    }
    !judged || !seen(text, before, l)
}

// The first number of a line.
fn first_right(
    text: &[u8],
    defines: bool,
    judged: bool,
    m: &Number,
    before: Before,
    l: &Number,
) -> bool
    requires before_placed { BeforePlaced text.now before }
    requires l_has_digits { 0 < length l.now.digits.now }
    ensures { result ≡ cond defines (defined_right judged (worth m.now) (before_of text.now before) (worth l.now)) (used_right (worth m.now) (worth l.now)) }
{
    if defines {
        return defined_right(text, judged, m, before, l);
    }
    used_right(m, l)
}

// The numbers of a line after one that ends at a place, so many of them: each is a literal that is used.
fn rest_right(text: &[u8], end: usize, left: usize, m: &Number) -> bool
    requires { Rest text.now end left }
    ensures { result ≡ all (used_right (worth m.now)) (numbers_after text.now end left) }
{
    let mut p = end;
    for _ in 0..left {
        let x = number_at(text, p + 1);
        if !used_right(m, &x) {
            return false;
        }
        p = p + 1 + x.digits.len();
    }
    true
}

// How many numbers the line at a place has: as its form says, or one more where a start value may follow; none where it is no such line.
fn width_of(text: &[u8], at: usize, form: Form) -> Option<usize>
    requires at_in_bounds { at ≤ length text.now }
    requires le_width { 1 ≤ form.width }
    requires width_bound { form.width ≤ 3 }
    ensures { WidthIs (form_of form) text.now at result }
{
    if line_past(text, at, form.width).is_some() {
        return Some(form.width);
    }
    if form.starts && line_past(text, at, form.width + 1).is_some() {
        return Some(form.width + 1);
    }
    None
}

// The start value of a line of so many numbers, where it has one: 0, 1 or the literal that the line defines.
fn start_right(text: &[u8], at: usize, form: Form, width: usize) -> bool
    requires at_in_bounds { at ≤ length text.now }
    requires at_value { ended text.now at ≡ true }
    requires at_value_2 { of_numbers width (line_at text.now at) ≡ true }
    requires le_width { 1 ≤ width }
    requires width_le_width { form.width ≤ width }
    ensures { result ≡ start_right (form_of form) (numbers_at text.now at) }
{
    if !form.starts || form.width == width {
        return true;
    }
    let start = nth(text, at, form.width);
    if start.value < 2 {
        return true;
    }
    is_sum(&start, 0, &nth(text, at, 0))
}

// The literals of a line of so many numbers.
fn literals_right(
    text: &[u8],
    at: usize,
    form: Form,
    width: usize,
    judged: bool,
    m: &Number,
    before: Before,
) -> bool
    requires at_in_bounds { at ≤ length text.now }
    requires at_value { ended text.now at ≡ true }
    requires at_value_2 { of_numbers width (line_at text.now at) ≡ true }
    requires le_width { 1 ≤ width }
    requires before_placed { BeforePlaced text.now before }
    ensures { result ≡ literals_right (form_of form) judged (worth m.now) (before_of text.now before) (numbers_at text.now at) }
{
    if form.counts {
        return true;
    }
    let first = number_at(text, at);
    if !first_right(text, form.defines, judged, m, before, &first) {
        return false;
    }
    rest_right(text, at + first.digits.len(), width - 1, m)
}

// Where the line after this one starts; none where this one is at fault.
pub fn line_of(
    text: &[u8],
    at: usize,
    form: Form,
    judged: bool,
    m: &Number,
    before: Before,
) -> Option<usize>
    requires at_in_bounds { at ≤ length text.now }
    requires le_width { 1 ≤ form.width }
    requires width_bound { form.width ≤ 3 }
    requires before_placed { BeforePlaced text.now before }
    ensures { (result ≡ cond (line_right (form_of form) judged (worth m.now) (before_of text.now before) text.now at) (Some (next_line text.now at)) None) × IfSome result (λ next. next ≤ length text.now) }
{
    let width = width_of(text, at, form)?;
    if !literals_right(text, at, form, width, judged, m, before) {
        return None;
    }
    if !start_right(text, at, form, width) {
        return None;
    }
    Some(next_line(text, at))
}
