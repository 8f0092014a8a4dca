// Where a variable is defined.
ghost use Rattle.std.specs.Prelude.{◌≡◌, ◌<◌, IfSome};
ghost use Rattle.meaning.specs.Circuit.{var};
ghost use Rattle.meaning.specs.Built.{among};
ghost use Rattle.lines.specs.Numbers.{worth};
ghost use Rattle.sections.specs.Lists.{Placed, found_at, variables_of};

use lines::line::next_line;
use lines::literal::same_variable;
use lines::number::{Number, number_at};

// Some lines of a section: where the first starts, and how many they are.
#[derive(Clone, Copy)]
pub struct Lines {
    pub at: usize,
    pub count: usize,
}

// The position of the first of some lines that defines the variable of a literal, if one does.
pub fn find(text: &[u8], s: Lines, x: &Number) -> Option<usize>
    requires { Placed text.now s }
    ensures { (result ≡ found_at (var (worth x.now)) (variables_of text.now s)) × IfSome result (λ i. i < s.count) }
{
    let mut p = s.at;
    for i in 0..s.count {
        let y = number_at(text, p);
        if same_variable(x, &y) {
            return Some(i);
        }
        p = next_line(text, p + y.digits.len());
    }
    None
}

// Whether one of some lines defines it.
pub fn defines(text: &[u8], s: Lines, x: &Number) -> bool
    requires { Placed text.now s }
    ensures { result ≡ among (var (worth x.now)) (variables_of text.now s) }
{
    find(text, s, x).is_some()
}
