// Symbol lines of a circuit text, and the comment: the first line at fault. One pass, line by line, with nothing copied; a position that is
// named twice is found by walking the earlier lines.
#![tactic(auto)]

pub mod line;
pub mod symbol;

ghost use Rattle.std.specs.Prelude.{◌≡◌, [], ◌≤◌, length};
ghost use Rattle.meaning.specs.CircuitText.{symbols_fault};
ghost use Rattle.lines.specs.Faults.{fault_of};
ghost use Rattle.symbols.specs.Symbols.{header_from, Small};

use line::line_from;
use lines::fault::Fault;

// How many there are to name: inputs, latches, outputs, bad literals, constraints, justice properties and fairness constraints.
// That each is below HUGE stays a clause (`Small`): in the type it would put seven proofs into the definitions `any_count` and `counts_of`.
#[derive(Clone, Copy)]
pub struct Counts {
    pub i: usize,
    pub l: usize,
    pub o: usize,
    pub b: usize,
    pub c: usize,
    pub j: usize,
    pub f: usize,
}

// Symbol lines from a place on, in any order, then, perhaps, the comment. Whether a position is named twice is asked only where `judged`.
pub fn symbols_fault(text: &[u8], counts: Counts, judged: bool, at: usize) -> Result<(), Fault>
    requires at_in_bounds { at ≤ length text.now }
    requires small { Small counts }
    ensures { result ≡ fault_of (symbols_fault (length text.now) judged (header_from counts) text.now [] at) }
{
    let mut p = at;
    // A walk from line to line, and so by places that jump: nothing is counted by hand.
    while p < text.len() {
        let Some(line) = line_from(text, p) else {
            return Err(Fault { at: p });
        };
        if line.begins_comment() {
            return Ok(());
        }
        if !line.is_right(counts, judged, at) {
            return Err(Fault { at: p });
        }
        p = line.end + 1;
    }
    Ok(())
}
