// A number as a word.
ghost use Rattle.std.specs.Prelude.{◌≡◌};
ghost use Rattle.spelling.specs.Numbers.{all_digits, is_number, value, up_to, number_of};

// Why a word is no number that is small enough.
#[derive(Clone, Copy, PartialEq, Eq)]
pub enum NumberFault {
    Over,
    Not,
}

fn all_digits(word: &[u8]) -> bool
    ensures { result ≡ all_digits word.now }
{
    word.iter().all(|b| b.is_ascii_digit())
}

// Digits alone, and at least one.
fn is_number(word: &[u8]) -> bool
    ensures { result ≡ is_number word.now }
{
    !word.is_empty() && all_digits(word)
}

// The value by Horner's rule. What is over the largest once stays over it, so that no word is too long.
fn up_to(word: &[u8], most: u32) -> Result<u32, NumberFault>
    ensures { result ≡ up_to most (value word.now) }
{
    let mut v: u64 = 0;
    for b in word {
        v = 10 * v + u64::from(b.saturating_sub(b'0'));
        if u64::from(most) < v {
            return Err(NumberFault::Over);
        }
    }
    Ok(v as u32)
}

// A word of any length as a number that is at most so large.
pub fn read_number(word: &[u8], most: u32) -> Result<u32, NumberFault>
    ensures { result ≡ number_of word.now most }
{
    if !is_number(word) {
        return Err(NumberFault::Not);
    }
    up_to(word, most)
}
