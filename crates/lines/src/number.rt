// A number where it stands in a text.
ghost use Rattle.std.specs.Prelude.{◌≡◌, true, [], ◌+◌, ◌≤◌, length, drop, IfSome};
ghost use Rattle.meaning.specs.Clauses.{all};
ghost use Rattle.meaning.specs.Lines.{is_digit, decimal};
ghost use Rattle.lines.specs.Digits.{digit_at, capped, grown, digits_of};

// Its digits, and its value; HUGE stands for every value from there on.
#[derive(Clone, Copy)]
pub struct Number<'a> {
    pub digits: &'a [u8],
    pub value: usize,
    pub ghost digital: { all is_digit digits.now ≡ true },
    pub ghost valued: { value ≡ capped (decimal digits.now) },
}

impl Number<'_> {
    // The last value, down from what a word holds, that ends in the digit 0.
    pub const HUGE: usize = 18446744073709551610;
}

// The number with no digits, which is 0.
pub fn no_number() -> Number<'static>
    ensures { result.digits.now ≡ [] }
{
    Number {
        digits: b"",
        value: 0,
    }
}

// The digit at a place, if one stands there.
pub fn digit_at(text: &[u8], at: usize) -> Option<usize>
    ensures { (result ≡ digit_at text.now at) × IfSome result (λ d. d ≤ 9) }
{
    if text.len() <= at || !text[at].is_ascii_digit() {
        return None;
    }
    Some(usize::from(text[at] - b'0'))
}

// One digit more: what is huge stays huge.
fn grown(value: usize, digit: usize) -> usize
    requires { digit ≤ 9 }
    ensures { result ≡ grown value digit }
{
    if Number::HUGE / 10 <= value {
        return Number::HUGE;
    }
    10 * value + digit
}

// The number whose digits start at a place: all digits from there on, perhaps none.
pub fn number_at(text: &[u8], at: usize) -> Number<'_>
    requires { at ≤ length text.now }
    ensures digits { result.digits.now ≡ digits_of (drop at text.now) }
    ensures inside { at + length result.digits.now ≤ length text.now }
{
    let mut value: usize = 0;
    for end in at..text.len() {
        let Some(digit) = digit_at(text, end) else {
            return Number {
                digits: &text[at..end],
                value,
            };
        };
        value = grown(value, digit);
    }
    Number {
        digits: &text[at..],
        value,
    }
}
