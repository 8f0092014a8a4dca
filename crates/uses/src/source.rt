// Where a literal's variable comes from.
ghost use Rattle.std.specs.Prelude.{◌≡◌, ◌≤◌, IfSome};
ghost use Rattle.meaning.specs.Circuit.{var};
ghost use Rattle.meaning.specs.CircuitText.{known};
ghost use Rattle.lines.specs.Numbers.{worth};
ghost use Rattle.sections.specs.Whole.{Whole, circuit_at};
ghost use Rattle.uses.specs.Sources.{source_at};

use lines::number::Number;
use sections::circuit::Circuit;
use sections::find::{defines, find};

// 0 where it is a constant, an input or a latch; 1 more than its position where it is a gate; none where no line defines it.
pub fn source(text: &[u8], c: Circuit, x: &Number) -> Option<usize>
    requires { Whole text.now c }
    ensures { (result ≡ source_at (circuit_at text.now c) (var (worth x.now))) × IfSome result (λ k. k ≤ c.gates.count) }
{
    if x.value < 2 || defines(text, c.inputs, x) || defines(text, c.latches, x) {
        return Some(0);
    }
    let k = find(text, c.gates, x)?;
    Some(k + 1)
}

// Whether a line may use it: it is a constant, or some line defines it.
pub fn is_known(text: &[u8], c: Circuit, x: &Number) -> bool
    requires { Whole text.now c }
    ensures { result ≡ known (circuit_at text.now c) (var (worth x.now)) }
{
    source(text, c, x).is_some()
}
