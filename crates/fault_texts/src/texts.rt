// The text of each fault.
ghost use Rattle.text.specs.Pages.{Puts};
ghost use Rattle.fault_texts.specs.FaultTexts.{fault_text};

use faults::wrong::Fault;
use format::Problem;
use text::Page;

// What is wrong, in plain words.
pub fn put_fault(page: &mut Page<'_>, f: Fault)
    ensures { Puts (fault_text f) page.old page.new }
{
    match f {
        Fault::TooLong => page.put_filled(
            b"the file has more than # bytes\n",
            &[Problem::FILE_MOST as u64],
        ),
        Fault::HeadCut(left) => page.put_filled(
            b"the record is cut short: of the 4 bytes of its head # are there\n",
            &[left as u64],
        ),
        Fault::BodyCut(len, left) => page.put_filled(
            b"the record is cut short: of the # bytes of its body # are there\n",
            &[len as u64, left as u64],
        ),
        Fault::KindOut(kind) => page.put_filled(
            b"kind # is out of place: kinds are 1 to 6, the first record is of kind 1 and no other is, and kinds never go down\n",
            &[kind as u64],
        ),
        Fault::LengthOut(len, kind) => page.put_filled(
            b"a body of # bytes for a record of kind #: kind 1 has 4, kinds 2 to 5 an even number up to 128, and kind 6 has 0\n",
            &[len as u64, kind as u64],
        ),
        Fault::CountsOut(n, m) => {
            page.put_filled(
                b"# state variables and # inputs and helpers, ",
                &[n as u64, m as u64],
            );
            page.put_filled(
                b"but a file has 1 to # and 0 to #\n",
                &[Problem::N_MOST as u64, Problem::M_MOST as u64],
            )
        }
        Fault::LiteralZero => page.put_all(b"a literal 0, which names no variable\n"),
        Fault::NoState(v, n) => page.put_filled(
            b"variable #, but the file has # state variables\n",
            &[v as u64, n as u64],
        ),
        Fault::NextValue(v, of) => page.put_filled(
            b"variable # is the next value of state variable #, but only state variables, inputs and helpers may stand here\n",
            &[v as u64, of as u64],
        ),
        Fault::NoVariable(v, n, m, most) => {
            page.put_filled(
                b"variable #, but the file has 2*#+#",
                &[v as u64, n as u64, m as u64],
            );
            page.put_filled(b" = # variables\n", &[most as u64])
        }
        Fault::ManyClauses => page.put_filled(
            b"more than # clauses\n",
            &[Problem::CLAUSES_MOST as u64],
        ),
        Fault::ManyLemmas => page.put_filled(
            b"more than # lemmas\n",
            &[Problem::LEMMAS_MOST as u64],
        ),
        Fault::Behind(left) => page.put_filled(b"bytes behind the end record: #\n", &[left as u64]),
        Fault::Unknown => page.put_all(b"no refusal of a file\n"),
    }
}
