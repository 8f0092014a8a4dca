// The whole text: the header, the sections one after another, the symbols, and what the lines use.
ghost use Rattle.std.specs.Prelude.{◌≡◌, true, ◌≤◌, length};
ghost use Rattle.circuit_text.specs.Header.{Parts};
ghost use Rattle.circuit_text.specs.Properties.{Counted};
ghost use Rattle.circuit_text.specs.Read.{GatesRead, LinesRead, UsesRead, TextRead};
ghost use Rattle.sections.specs.Lists.{Placed};
ghost use Rattle.sections.specs.Whole.{Whole, circuit_at};
ghost use Rattle.uses.specs.Stuck.{Distinct};
ghost use Rattle.circuit_text.specs.Stages.{word_most};

use crate::header::{Header, read_header};
use crate::properties::read_properties;
use lines::fault::Fault;
use sections::circuit::{Circuit, Properties};
use sections::find::Lines;
use sections::line::Form;
use sections::read::read_section;
use symbols::{Counts, symbols_fault};
use uses::stuck::uses_fault;

// The gates and the symbols, after the lines that are read.
fn read_gates(
    text: &[u8],
    h: &Header,
    judged: bool,
    inputs: Lines,
    latches: Lines,
    properties: Properties,
    at: usize,
) -> Result<Circuit, Fault>
    requires parts { Parts text.now h.now }
    requires text_len_bound { length text.now ≤ word_most }
    requires at_in_bounds { at ≤ length text.now }
    requires placed { Placed text.now inputs }
    requires placed_2 { Placed text.now latches }
    requires counted { Counted h.now }
    ensures { GatesRead text.now h.now judged inputs latches properties at result }
{
    let last = read_section(
        text,
        at,
        h.a.value,
        Form::GATE,
        judged,
        &h.m,
        inputs,
        latches,
    )?;
    let counts = Counts {
        i: h.i.value,
        l: h.l.value,
        o: h.o.value,
        b: h.b.value,
        c: h.c.value,
        j: h.j.value,
        f: h.f.value,
    };
    symbols_fault(text, counts, judged, last)?;
    Ok(Circuit {
        inputs,
        latches,
        properties,
        gates: Lines {
            at,
            count: h.a.value,
        },
    })
}

// The lines after the header.
fn read_lines(text: &[u8], h: &Header, judged: bool) -> Result<Circuit, Fault>
    requires parts { Parts text.now h.now }
    requires text_len_bound { length text.now ≤ word_most }
    ensures { LinesRead text.now h.now judged result }
{
    let none = Lines { at: 0, count: 0 };
    let first = read_section(
        text,
        h.next,
        h.i.value,
        Form::INPUT,
        judged,
        &h.m,
        none,
        none,
    )?;
    let inputs = Lines {
        at: h.next,
        count: h.i.value,
    };
    let form = Form {
        starts: h.newer,
        ..Form::LATCH
    };
    let second = read_section(text, first, h.l.value, form, judged, &h.m, inputs, none)?;
    let latches = Lines {
        at: first,
        count: h.l.value,
    };
    let (properties, next) = read_properties(text, h, judged, second)?;
    read_gates(text, h, judged, inputs, latches, properties, next)
}

// What the lines use, as far as that is judged.
fn read_uses(text: &[u8], c: Circuit, judged: bool) -> Result<(), Fault>
    requires whole { Whole text.now c }
    requires distinct { judged ≡ true → Distinct (circuit_at text.now c) }
    requires text_len_bound { judged ≡ true → length text.now ≤ 65536 }
    ensures { UsesRead text.now judged c result }
{
    if !judged {
        return Ok(());
    }
    uses_fault(text, c)
}

// A circuit text of any length, where it stands, or its first line at fault: within 65,536 bytes everything is judged.
pub fn read_circuit(text: &[u8]) -> Result<Circuit, Fault>
    ensures { TextRead text.now result }
{
    let Some(h) = read_header(text) else {
        return Err(Fault { at: 0 });
    };
    let judged = text.len() <= 65536;
    let c = read_lines(text, &h, judged)?;
    read_uses(text, c, judged)?;
    Ok(c)
}
