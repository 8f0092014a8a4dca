// Numbers of any size compared, digit by digit from the right, where their values do not fit a word.
ghost use Rattle.std.specs.Prelude.{◌≡◌, ◌+◌, ◌≤◌, eqb};
ghost use Rattle.lines.specs.Numbers.{worth};
ghost use Rattle.lines.specs.Tails.{digit_from};
ghost use Rattle.lines.specs.Order.{order};

use crate::number::{Number, no_number};
use std::cmp::Ordering;

// The digit with so many digits after it; 0 where there is none.
fn digit_from(x: &Number, p: usize) -> usize
    ensures { (result ≡ digit_from x.now.digits.now p) × (result ≤ 9) }
{
    if x.digits.len() <= p {
        return 0;
    }
    usize::from(x.digits[x.digits.len() - 1 - p] - b'0')
}

// The sum of three numbers and a carry, compared with a fourth.
pub fn compare<'t>(
    a: &Number<'t>,
    b: &Number<'t>,
    c: &Number<'t>,
    carry: usize,
    m: &Number<'t>,
) -> Ordering
    requires { carry ≤ 9 }
    ensures { result ≡ order (worth a.now + worth b.now + worth c.now + carry) (worth m.now) }
{
    let width = a
        .digits
        .len()
        .max(b.digits.len())
        .max(c.digits.len())
        .max(m.digits.len());
    let mut over = carry;
    let mut seen = Ordering::Equal;
    for p in 0..width {
        let sum = digit_from(a, p) + digit_from(b, p) + digit_from(c, p) + over;
        seen = (sum % 10).cmp(&digit_from(m, p)).then(seen);
        over = sum / 10;
    }
    if 0 < over {
        return Ordering::Greater;
    }
    seen
}

// Whether a number and so much more is another number.
pub fn is_sum(a: &Number, carry: usize, b: &Number) -> bool
    requires { carry ≤ 9 }
    ensures { result ≡ eqb (worth a.now + carry) (worth b.now) }
{
    let none = no_number();
    compare(a, &none, &none, carry, b).is_eq()
}
