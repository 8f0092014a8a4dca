// The lines of a section, each of which puts its own records.
ghost use Rattle.std.specs.Prelude.{ℕ, List};
ghost use Rattle.records.specs.Puts.{Puts, HasRoom};
ghost use Rattle.built.specs.Turns.{parts};
ghost use Rattle.built.specs.Walk.{Walk, Writes};

use lines::line::next_line;
use records::Records;
use sections::find::Lines;

// Puts what each line puts, by line order: a line is told by where it starts and by its number, counted from 0.
pub fn put_lines<F: Fn(usize, usize, &mut Records<'_>)>(
    text: &[u8],
    s: Lines,
    out: &mut Records<'_>,
    put: F,
)
    requires { Walk text.now s out.old (F.pre put) (F.post put) }
    ensures { (part : ℕ → List ℕ) → HasRoom (parts part 0 s.count) out.old → Writes text.now s part (F.post put) → Puts (parts part 0 s.count) out.old out.new }
{
    let mut line = s.at;
    for i in 0..s.count {
        put(line, i, out);
        line = next_line(text, line);
    }
}
