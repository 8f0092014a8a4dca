// A candidate lemma with its literals, on a line.
ghost use Rattle.std.specs.Prelude.{suc, ◌+◌, ◌*◌, ◌≤◌, length};
ghost use Rattle.meaning.specs.File.{accepted, literals, read};
ghost use Rattle.format.specs.Forms.{literal_of};
ghost use Rattle.format.specs.Section.{problem_at, Inside, Placed};
ghost use Rattle.text.specs.Page.{Holds};
ghost use Rattle.text.specs.Pages.{Puts};
ghost use Rattle.told_lemmas.specs.Lemmas.{literal_text, literals_text, clause_text, lemma_text, lemma_line};
ghost use Rattle.told_lemmas.specs.LemmaLaws.{Stands};

use format::{Literal, Problem};
use text::Page;

// A literal, with a space before it.
fn put_literal(page: &mut Page<'_>, l: Literal)
    ensures { Puts (literal_text (literal_of l)) page.old page.new }
{
    match l {
        Literal::Pos(v) => page.put_filled(b" #", &[v as u64]),
        Literal::Neg(v) => page.put_filled(b" -#", &[v as u64]),
    }
}

// So many literals from a place of the file on, and the line's end.
fn put_literals(page: &mut Page<'_>, file: &[u8], from: usize, count: usize)
    requires { from + 2 * count ≤ length file.now }
    ensures { Puts (literals_text (literals file.now from count)) page.old page.new }
{
    for i in 0..count {
        put_literal(page, format::literal_at(file, from + 2 * i));
    }
    page.put(b'\n')
}

// A clause; an empty one never holds.
fn put_clause(page: &mut Page<'_>, file: &[u8], from: usize, count: usize)
    requires { from + 2 * count ≤ length file.now }
    ensures { Puts (clause_text (literals file.now from count)) page.old page.new }
{
    if count == 0 {
        return page.put_all(b" no literal, never true\n");
    }
    put_literals(page, file, from, count)
}

// Where the record so many records on starts. The search has its own: it promises another thing, and neither crate sees the other.
fn record_on(file: &[u8], start: usize, position: usize) -> usize
    requires { Inside file.now start (suc position) }
    ensures { Stands file.now start position result }
{
    let mut at = start;
    for _passed in 0..position {
        at = at + 4 + format::two_at(file, at);
    }
    at
}

// The lemma at a position of an accepted file.
fn put_lemma(page: &mut Page<'_>, file: &[u8], p: Problem, position: usize)
    requires { Placed file.now p }
    ensures { Puts (lemma_text (accepted (problem_at file.now p)) position) page.old page.new }
{
    if p.k <= position {
        return page.put_all(b" there is none\n");
    }
    let start = record_on(file, p.lemmas_at, position);
    put_clause(page, file, start + 4, format::two_at(file, start) / 2)
}

// The lemma at a position, with its literals.
pub fn lemma_line(file: &[u8], position: usize, out: &mut [u8]) -> usize
    ensures { Holds out.old (lemma_line file.now position) out.new result }
{
    let mut page = Page::new(out);
    page.put_filled(b"  lemma #:", &[position as u64]);
    match problem::read_problem(file) {
        Ok(p) => put_lemma(&mut page, file, p, position),
        Err(_) => page.put_all(b" there is none\n"),
    }
    page.end
}
