// The first line that uses a variable that no line defines.
ghost use Rattle.std.specs.Prelude.{◌≡◌, suc};
ghost use Rattle.meaning.specs.CircuitText.{first_unknown};
ghost use Rattle.sections.specs.Whole.{Whole, RowsAt, circuit_at, lines_of};
ghost use Rattle.lines.specs.Faults.{fault_of};

use crate::source::is_known;
use lines::fault::Fault;
use lines::line::next_line;
use sections::circuit::Circuit;
use sections::find::Lines;
use sections::nth::nth;

// The first of some lines whose number j no line may use is at fault.
pub fn first_unknown(text: &[u8], c: Circuit, s: Lines, j: usize) -> Result<(), Fault>
    requires whole { Whole text.now c }
    requires rows_at { RowsAt text.now (suc j) s }
    ensures { result ≡ fault_of (first_unknown (circuit_at text.now c) j (lines_of text.now s)) }
{
    let mut p = s.at;
    for _ in 0..s.count {
        let x = nth(text, p, j);
        if !is_known(text, c, &x) {
            return Err(Fault { at: p });
        }
        p = next_line(text, p);
    }
    Ok(())
}
