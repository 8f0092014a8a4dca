// The lines that define a variable, as far as lines start with a number.
ghost use Rattle.std.specs.Prelude.{◌≡◌, ◌<◌, ◌≤◌, length};
ghost use Rattle.meaning.specs.Circuit.{var};
ghost use Rattle.lines.specs.Numbers.{worth};
ghost use Rattle.text_faults.specs.Definers.{definer, Inside, past_properties, places_of, known_here, earlier};

use crate::places::{after_line, skip};
use crate::sizes::Sizes;
use lines::literal::same_variable;
use lines::number::{Number, number_at};

// Where the lines of inputs (and after them of latches), of outputs and what follows them, of gates and of symbols start.
#[derive(Clone, Copy)]
pub struct Places {
    pub inputs: usize,
    pub outputs: usize,
    pub gates: usize,
    pub symbols: usize,
}

// Past outputs, bad literals, constraints, counts, justice and fairness literals.
#[tactic(auto, unfolding(crate::specs::Definers::past_properties))]
fn past_properties(text: &[u8], s: Sizes, at: usize) -> usize
    requires { at ≤ length text.now }
    ensures { (result ≡ past_properties text.now s at) × (result ≤ length text.now) }
{
    let counts = skip(
        text,
        skip(text, skip(text, at, s.outputs), s.bads),
        s.constraints,
    );
    skip(
        text,
        skip(text, skip(text, counts, s.counts), s.justice),
        s.fairness,
    )
}

// By how many there are of each kind, from the first input on.
#[tactic(auto, unfolding(crate::specs::Definers::places_of, crate::specs::Definers::gates_at, crate::specs::Definers::outputs_at))]
pub fn places_of(text: &[u8], s: Sizes, next: usize) -> Places
    requires { next ≤ length text.now }
    ensures { (result ≡ places_of text.now s next) × Inside text.now result }
{
    let outputs = skip(text, skip(text, next, s.inputs), s.latches);
    let gates = past_properties(text, s, outputs);
    let symbols = skip(text, gates, s.gates);
    Places {
        inputs: next,
        outputs,
        gates,
        symbols,
    }
}

// The first line from a place on, and before another, whose first number has this literal's variable; that other, where none has.
// No Option: `definer` and `earlier` are public and promise a place, and `told_so` in specs/So.antt tells by it whether a line was found.
pub fn definer(text: &[u8], x: &Number, from: usize, to: usize) -> usize
    requires { to ≤ length text.now }
    ensures { result ≡ definer (length text.now) text.now (var (worth x.now)) from to }
{
    let mut p = from;
    // No `for`: the place goes from line to line, and nothing is counted by hand.
    while p < to {
        let y = number_at(text, p);
        if same_variable(x, &y) {
            return p;
        }
        p = after_line(text, p);
    }
    to
}

// Whether a literal is a constant, or an input, a latch or a gate has its variable.
#[tactic(auto, using(sections::specs::Rows::value_small, sections::specs::Rows::value_least), unfolding(crate::specs::Definers::known_here))]
pub fn known_here(text: &[u8], p: Places, x: &Number) -> bool
    requires { Inside text.now p }
    ensures { result ≡ known_here text.now p (worth x.now) }
{
    if x.value < 2 {
        return true;
    }
    if definer(text, x, p.inputs, p.outputs) < p.outputs {
        return true;
    }
    definer(text, x, p.gates, p.symbols) < p.symbols
}

// The first line before a place that defines this literal's variable; the place, where none does.
#[tactic(auto, using(crate::specs::Definers::earlier_first, crate::specs::Definers::earlier_second))]
pub fn earlier(text: &[u8], p: Places, x: &Number, at: usize) -> usize
    requires inside { Inside text.now p }
    requires at_in_bounds { at ≤ length text.now }
    ensures { result ≡ earlier text.now p (worth x.now) at }
{
    let to = p.outputs.min(at);
    let found = definer(text, x, p.inputs, to);
    if found < to {
        return found;
    }
    definer(text, x, p.gates, at)
}
