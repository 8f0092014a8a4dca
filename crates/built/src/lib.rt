// The problem file that is built from a circuit and its lemmas, written into bytes that the caller lends.
#![tactic(auto)]

ghost use Rattle.std.specs.Prelude.{◌≡◌, ◌+◌, ◌<◌, ◌≤◌, [], ◌++◌, length, IsOkAnd};
ghost use Rattle.meaning.specs.LemmaText.{read_lemma_text};
ghost use Rattle.meaning.specs.Filed.{two, record_bytes, file_of};
ghost use Rattle.records.specs.Put.{put};
ghost use Rattle.lemma_text.specs.Rest.{summary_of};
ghost use Rattle.sections.specs.Whole.{circuit_at};
ghost use Rattle.clause_count.specs.Bad.{OneBad};
ghost use Rattle.built.specs.Edges.{Small};
ghost use Rattle.records.specs.Puts.{Puts, HasRoom};
ghost use Rattle.built.specs.Problem.{tr_records, bad_records, problem_of};

pub mod clause;
pub mod edge;
pub mod gates;
pub mod latches;
pub mod literal;
pub mod ones;
pub mod walk;

use clause_count::bad::bad_lines;
use gates::put_gates;
use latches::{put_latches, put_starts};
use lemma_text::write_lemmas;
use ones::put_ones;
use records::Records;
use sections::circuit::Circuit;

// The first record: the numbers of state variables and of helpers.
fn put_first(out: &mut Records<'_>, n: usize, m: usize)
    requires n_bound { n < 65536 }
    requires m_bound { m < 65536 }
    requires m_in_bounds { HasRoom (record_bytes 1 (two n ++ two m)) out.old }
    ensures { Puts (record_bytes 1 (two n ++ two m)) out.old out.new }
{
    out.put_head(4, 1);
    out.put_two(n);
    out.put_two(m);
}

// The last record.
fn put_end(out: &mut Records<'_>)
    requires { HasRoom (record_bytes 6 []) out.old }
    ensures { Puts (record_bytes 6 []) out.old out.new }
{
    out.put_head(0, 6);
}

// Tr: the gates, then the latches, then the constraints.
fn put_tr(text: &[u8], c: Circuit, out: &mut Records<'_>)
    requires small { Small text.now c }
    requires c_in_bounds { HasRoom (tr_records (circuit_at text.now c)) out.old }
    ensures { Puts (tr_records (circuit_at text.now c)) out.old out.new }
{
    put_gates(text, c, out, 3);
    put_latches(text, c, out);
    put_ones(text, c, c.properties.constraints, out, 3);
}

// Bad: the gates again, then the bad literal, then the constraints.
// Not one function with put_tr: the middle part and its `requires` differ, and what they share is the two calls around it.
fn put_bad(text: &[u8], c: Circuit, out: &mut Records<'_>)
    requires small { Small text.now c }
    requires one_bad { OneBad c.properties }
    requires c_in_bounds { HasRoom (bad_records (circuit_at text.now c)) out.old }
    ensures { Puts (bad_records (circuit_at text.now c)) out.old out.new }
{
    let bad = bad_lines(c.properties);
    put_gates(text, c, out, 4);
    put_ones(text, c, bad, out, 4);
    put_ones(text, c, c.properties.constraints, out, 4);
}

// Writes the file of the problem that is built, from the start, and says how long it is.
// A slice and a length, and no Records: the promise that docs/PROOFS.md names is of the caller's slice.
pub fn write_problem(text: &[u8], c: Circuit, lemmas: &[u8], out: &mut [u8]) -> usize
    requires small { Small text.now c }
    requires one_bad { OneBad c.properties }
    requires lemmas_value { IsOkAnd (summary_of (read_lemma_text c.latches.count lemmas.now)) (λ l. l.longest ≤ 64) }
    requires lemmas_in_bounds { length (file_of (problem_of text.now c lemmas.now)) ≤ length out.old }
    ensures { (result ≡ length (file_of (problem_of text.now c lemmas.now))) × (out.new ≡ put 0 (file_of (problem_of text.now c lemmas.now)) out.old) }
{
    let n = c.latches.count;
    let mut file = Records::new(out);
    put_first(&mut file, n, c.inputs.count + c.gates.count);
    put_starts(text, c, &mut file);
    put_tr(text, c, &mut file);
    put_bad(text, c, &mut file);
    write_lemmas(lemmas, n, &mut file);
    put_end(&mut file);
    file.end
}
