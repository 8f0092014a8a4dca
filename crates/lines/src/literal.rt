// Literals of a circuit: whether one is even, its range by the header, and whether two have the same variable.
ghost use Rattle.std.specs.Prelude.{◌≡◌, ◌<◌, ◌%◌, eqb, length};
ghost use Rattle.meaning.specs.Circuit.{var};
ghost use Rattle.meaning.specs.CircuitText.{used_right};
ghost use Rattle.lines.specs.Numbers.{worth};

use crate::compare::{compare, is_sum};
use crate::number::{Number, no_number};

// The last digit says it.
pub fn is_even(x: &Number) -> bool
    requires { 0 < length x.now.digits.now }
    ensures { result ≡ eqb (worth x.now % 2) 0 }
{
    x.digits[x.digits.len() - 1] % 2 == 0
}

// A literal that is used is 0 to 2M+1.
pub fn used_right(m: &Number, l: &Number) -> bool
    ensures { result ≡ used_right (worth m.now) (worth l.now) }
{
    if l.value < Number::HUGE {
        return l.value / 2 <= m.value;
    }
    compare(m, m, &no_number(), 1, l).is_ge()
}

// Whether two literals have the same variable.
pub fn same_variable(a: &Number, b: &Number) -> bool
    ensures { result ≡ eqb (var (worth a.now)) (var (worth b.now)) }
{
    match (a.value < Number::HUGE, b.value < Number::HUGE) {
        (true, true) => a.value / 2 == b.value / 2,
        (true, false) => false,
        (false, true) => false,
        (false, false) => same_far(a, b),
    }
}

// The same where neither value fits a word.
fn same_far(a: &Number, b: &Number) -> bool
    requires a_has_digits { 0 < length a.now.digits.now }
    requires b_has_digits { 0 < length b.now.digits.now }
    ensures { result ≡ eqb (var (worth a.now)) (var (worth b.now)) }
{
    if is_sum(a, 0, b) {
        return true;
    }
    if is_even(a) {
        return is_sum(a, 1, b);
    }
    is_even(b) && is_sum(b, 1, a)
}
