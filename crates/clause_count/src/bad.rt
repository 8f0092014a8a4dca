// Where the bad literal stands.
ghost use Rattle.std.specs.Prelude.{◌≡◌};
ghost use Rattle.clause_count.specs.Bad.{bad_lines};

use sections::circuit::Properties;
use sections::find::Lines;

// The lines of the bad literals or, where there are none, of the outputs.
pub fn bad_lines(p: Properties) -> Lines
    ensures { result ≡ bad_lines p }
{
    if 0 < p.bads.count {
        return p.bads;
    }
    p.outputs
}
