// What stands for a literal of the circuit: a constant, or a literal of the problem.
ghost use Rattle.std.specs.Prelude.{◌≡◌, suc, ◌≤◌, get_or};
ghost use Rattle.meaning.specs.Circuit.{var};
ghost use Rattle.meaning.specs.Built.{edge, opposite, number};
ghost use Rattle.meaning.specs.CircuitText.{numbers_at};
ghost use Rattle.lines.specs.Numbers.{worth};
ghost use Rattle.sections.specs.Whole.{circuit_at};
ghost use Rattle.clause_count.specs.Rows.{RowAt};
ghost use Rattle.clause_count.specs.Lengths.{is_true};
ghost use Rattle.built.specs.Edges.{edge_of, variable_of, is_named, Small};

use crate::literal::Literal;
use lines::literal::is_even;
use lines::number::Number;
use sections::circuit::Circuit;
use sections::find::find;
use sections::nth::nth;

// A constant, or a literal.
#[derive(Clone, Copy)]
pub enum Edge {
    Constant(bool),
    Named(Literal),
}

impl Edge {
    // Its negation. Not std's `Not`: the definition's own word, `opposite` of meaning, is no less plain than `!e`.
    pub fn opposite(self) -> Edge
        ensures { (edge_of result ≡ opposite (edge_of self)) × (variable_of result ≡ variable_of self) }
    {
        match self {
            Edge::Constant(b) => Edge::Constant(!b),
            Edge::Named(l) => Edge::Named(Literal {
                negative: !l.negative,
                variable: l.variable,
            }),
        }
    }

    // It is constantly true.
    pub fn is_true(&self) -> bool
        ensures { result ≡ is_true (edge_of self.now) }
    {
        match self {
            Edge::Constant(b) => *b,
            Edge::Named(_) => false,
        }
    }

    // It is a literal.
    pub fn is_named(&self) -> bool
        ensures { result ≡ is_named self.now }
    {
        matches!(self, Edge::Named(_))
    }
}

// The problem's variable for that of a literal that is no constant: latches first, then, after their next values, inputs and gates.
fn variable_at(text: &[u8], c: Circuit, x: &Number) -> usize
    requires { Small text.now c }
    ensures { (result ≡ number (circuit_at text.now c) (var (worth x.now))) × (1 ≤ result) × (result ≤ 513) }
{
    let n = c.latches.count;
    if let Some(latch) = find(text, c.latches, x) {
        return latch + 1;
    }
    if let Some(input) = find(text, c.inputs, x) {
        return n + n + input + 1;
    }
    let gate = find(text, c.gates, x).unwrap_or(c.gates.count);
    n + n + c.inputs.count + gate + 1
}

// Number j of a line.
pub fn edge_at(text: &[u8], c: Circuit, at: usize, j: usize) -> Edge
    requires small { Small text.now c }
    requires row_at { RowAt text.now (suc j) at }
    ensures { (edge_of result ≡ edge (circuit_at text.now c) (get_or (numbers_at text.now at) j 0)) × (variable_of result ≤ 513) }
{
    let x = nth(text, at, j);
    let negative = !is_even(&x);
    if x.value < 2 {
        return Edge::Constant(negative);
    }
    let variable = variable_at(text, c, &x);
    Edge::Named(Literal { negative, variable })
}
