// The entries of a setting, and what a literal is worth there.
ghost use Rattle.std.specs.Prelude.{◌≡◌, ◌<◌};
ghost use Rattle.meaning.specs.Clauses.{variable};
ghost use Rattle.meaning.specs.Search.{value, with_literal};
ghost use Rattle.format.specs.Forms.{literal_of};
ghost use Rattle.passes.specs.Forms.{entry, entries};

use format::Literal;

// A literal is set true, in the entries of a setting that is lent.
pub fn set_true(values: &mut [u8; 513], l: Literal)
    requires { variable (literal_of l) < 513 }
    ensures { entries values.new ≡ with_literal (entries values.old) (literal_of l) }
{
    match l {
        Literal::Pos(x) => values[x] = 1,
        Literal::Neg(x) => values[x] = 2,
    }
}

// The value of a literal, as an entry of a setting: 0 unset, 1 true, 2 false.
pub fn worth(values: &[u8; 513], l: Literal) -> u8
    requires { variable (literal_of l) < 513 }
    ensures { entry result ≡ value (entries values.now) (literal_of l) }
{
    match l {
        Literal::Pos(x) => values[x],
        Literal::Neg(x) => {
            let v = values[x];
            if v == 0 {
                return 0;
            }
            if v == 1 {
                return 2;
            }
            1
        }
    }
}
