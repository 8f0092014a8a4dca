// The rules of a record, one test each, in the paper's order: 2 (head), 3, 4, 2 (body), 7, 5 or 6. A test answers the definition's truth
// value of the same name.
ghost use Rattle.std.specs.Prelude.{◌≡◌, cond, ◌+◌, ◌*◌, ◌<◌, ◌≤◌, length, drop, eqb};
ghost use Rattle.meaning.specs.File.{at_start, past, record_rules, kind_wrong, length_wrong, too_many, counts_wrong, two_at, literals, offends, before_offence, is_clause, literal_count, between, names, one_if_clause};
ghost use Rattle.format.specs.Forms.{kind_of, class_of, literal_of};
ghost use Rattle.problem.specs.Records.{reader_of, Sane, Headed, Stepped};
ghost use Rattle.problem.specs.Offences.{FirstOffence};

use crate::refusal::{Refusal, Rule};
use format::{Class, Literal, Problem, Row};

// What is known where a record must start: its place, the kind before it (0: there is none) and how many of that kind there were, the
// clause records so far (kinds 2 to 5 together), and n and m. Kinds are numbers, as `at_start` and `kind_wrong` of the definition have them.
#[derive(Clone, Copy)]
pub struct Cursor {
    pub at: usize,
    pub before: usize,
    pub of_kind: usize,
    pub clauses: usize,
    pub n: usize,
    pub m: usize,
}

#[tactic(auto, unfolding(meaning::specs::File::at_start))]
pub fn at_start() -> Cursor
    ensures { reader_of result ≡ at_start }
{
    Cursor {
        at: 0,
        before: 0,
        of_kind: 0,
        clauses: 0,
        n: 0,
        m: 0,
    }
}

// 3: kind out of 1..6, lower than the one before, a second kind 1, or a first record that isn't kind 1.
#[tactic(auto, unfolding(meaning::specs::File::kind_wrong))]
fn kind_wrong(before: usize, kind: usize) -> bool
    ensures { result ≡ kind_wrong before kind }
{
    kind < 1 || 6 < kind || kind < before || (kind == 1) != (before == 0)
}

// 4: body length not allowed for the kind.
#[tactic(auto, unfolding(meaning::specs::File::length_wrong))]
fn length_wrong(row: Row, len: usize) -> bool
    ensures { result ≡ length_wrong (kind_of row) len }
{
    len < row.shortest || row.longest < len || row.even && len % 2 != 0
}

#[tactic(auto, unfolding(meaning::specs::File::is_clause))]
fn is_clause(class: Class) -> bool
    ensures { result ≡ is_clause (class_of class) }
{
    !matches!(class, Class::Nothing)
}

#[tactic(auto, unfolding(meaning::specs::File::one_if_clause))]
fn one_if_clause(class: Class) -> usize
    ensures { (result ≡ one_if_clause (class_of class)) × (result ≤ 1) }
{
    usize::from(is_clause(class))
}

// 7: record that exceeds 4,096 clauses or 128 lemmas.
#[tactic(auto, unfolding(meaning::specs::File::too_many))]
fn too_many(row: Row, same: usize, clauses: usize) -> bool
    ensures { result ≡ too_many (kind_of row) same clauses }
{
    row.most <= same || is_clause(row.class) && Problem::CLAUSES_MOST <= clauses
}

// 5: n or m out of range.
#[tactic(auto, unfolding(meaning::specs::File::counts_wrong))]
fn counts_wrong(file: &[u8], kind: usize, body: usize) -> bool
    requires { kind ≡ 1 → body + 3 < length file.now }
    ensures { result ≡ counts_wrong kind (two_at file.now body) (two_at file.now (body + 2)) }
{
    if kind != 1 {
        return false;
    }
    let n = format::two_at(file, body);
    n < 1 || Problem::N_MOST < n || Problem::M_MOST < format::two_at(file, body + 2)
}

// Whether a class names a variable.
// Comparisons stay: with `(1..=n).contains(&v)` checking a full file took a quarter longer (51 us for 41).
#[tactic(auto, unfolding(meaning::specs::File::names, meaning::specs::File::between))]
fn names(class: Class, n: usize, m: usize, v: usize) -> bool
    requires { (n ≤ Problem.N_MOST) × (m ≤ Problem.M_MOST) }
    ensures { result ≡ names (class_of class) n m v }
{
    match class {
        Class::Nothing => false,
        Class::State => 1 <= v && v <= n,
        Class::Present => 1 <= v && v <= n || n + n + 1 <= v && v <= n + n + m,
        Class::Every => 1 <= v && v <= n + n + m,
    }
}

// How many literals a body of a class and a length holds.
#[tactic(auto, unfolding(meaning::specs::File::literal_count))]
fn literal_count(class: Class, len: usize) -> usize
    ensures { result ≡ literal_count (class_of class) len }
{
    match class {
        Class::Nothing => 0,
        Class::State | Class::Present | Class::Every => len / 2,
    }
}

// A literal that names none of the variables of its class.
#[tactic(auto, unfolding(meaning::specs::File::offends, meaning::specs::Clauses::variable))]
fn offends(class: Class, n: usize, m: usize, l: Literal) -> bool
    requires { (n ≤ Problem.N_MOST) × (m ≤ Problem.M_MOST) }
    ensures { result ≡ offends (names (class_of class) n m) (literal_of l) }
{
    match l {
        Literal::Pos(v) | Literal::Neg(v) => !names(class, n, m, v),
    }
}

// 6: the first literal that offends, by how many stand before it.
fn first_offence(
    file: &[u8],
    at: usize,
    count: usize,
    class: Class,
    n: usize,
    m: usize,
) -> Option<usize>
    requires count_in_bounds { at + 2 * count ≤ length file.now }
    requires counts_in_range { (n ≤ Problem.N_MOST) × (m ≤ Problem.M_MOST) }
    ensures { FirstOffence (names (class_of class) n m) (literals file.now at count) result }
{
    for i in 0..count {
        if offends(class, n, m, format::literal_at(file, at + 2 * i)) {
            return Some(i);
        }
    }
    None
}

// How many records of this kind stand before this one: kinds never go down.
fn same_kind(w: Cursor, kind: usize) -> usize
    ensures { result ≡ cond (eqb kind w.before) w.of_kind 0 }
{
    if kind == w.before { w.of_kind } else { 0 }
}

// What is known after a record.
fn past(file: &[u8], w: Cursor, len: usize, kind: usize) -> Cursor
    requires sane { Sane file.now (reader_of w) }
    requires headed { Headed file.now (reader_of w) len kind }
    ensures { reader_of result ≡ past file.now (reader_of w) }
{
    let body = w.at + 4;
    let next = Cursor {
        at: body + len,
        before: kind,
        of_kind: same_kind(w, kind) + 1,
        clauses: w.clauses + one_if_clause(Row::of(kind).class),
        ..w
    };
    if kind == 1 {
        return Cursor {
            n: format::two_at(file, body),
            m: format::two_at(file, body + 2),
            ..next
        };
    }
    next
}

// A record whose head and length are right: 7, 5 or 6; else what is known after it.
fn body_of(file: &[u8], w: Cursor, len: usize, kind: usize) -> Result<Cursor, Refusal>
    requires sane { Sane file.now (reader_of w) }
    requires headed { Headed file.now (reader_of w) len kind }
    ensures { Stepped file.now (reader_of w) (drop 4 (record_rules file.now (reader_of w))) result }
{
    let row = Row::of(kind);
    if too_many(row, same_kind(w, kind), w.clauses) {
        return Err(Rule::TooMany.at(w.at));
    }
    let body = w.at + 4;
    if counts_wrong(file, kind, body) {
        return Err(Rule::Counts.at(w.at));
    }
    let count = literal_count(row.class, len);
    match first_offence(file, body, count, row.class, w.n, w.m) {
        Some(i) => Err(Rule::Literal.at(body + 2 * i)),
        None => Ok(past(file, w, len, kind)),
    }
}

// One record: 2 (head), 3, 4, 2 (body), then the rules of its body.
pub fn record_at(file: &[u8], w: Cursor) -> Result<Cursor, Refusal>
    requires file_bound { length file.now ≤ Problem.FILE_MOST }
    requires sane { Sane file.now (reader_of w) }
    ensures { Stepped file.now (reader_of w) (record_rules file.now (reader_of w)) result }
{
    if file.len() < w.at + 4 {
        return Err(Rule::Short.at(w.at));
    }
    let len = format::two_at(file, w.at);
    let kind = format::two_at(file, w.at + 2);
    if kind_wrong(w.before, kind) {
        return Err(Rule::Kind.at(w.at));
    }
    if length_wrong(Row::of(kind), len) {
        return Err(Rule::Length.at(w.at));
    }
    if file.len() < w.at + 4 + len {
        return Err(Rule::Short.at(w.at));
    }
    body_of(file, w, len, kind)
}
