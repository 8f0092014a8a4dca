// What 15 refuses: how many justice and fairness properties a circuit text has, by its header.
ghost use Rattle.std.specs.Prelude.{◌≡◌};
ghost use Rattle.text_faults.specs.Liveness.{liveness_of};

use circuit_text::header::read_header;

// How many of each.
#[derive(Clone, Copy)]
pub struct Liveness {
    pub justice: usize,
    pub fairness: usize,
}

// None, where the header is not right: a count of 0, as `liveness_of` in specs/Liveness.antt says, and no Option.
#[tactic(auto, using(crate::specs::Liveness::live_is, lines::specs::Numbers::value_is), unfolding(crate::specs::Liveness::liveness_of, circuit_text::specs::Header::header_at))]
pub fn liveness_of(text: &[u8]) -> Liveness
    ensures { result ≡ liveness_of text.now }
{
    let Some(h) = read_header(text) else {
        return Liveness {
            justice: 0,
            fairness: 0,
        };
    };
    Liveness {
        justice: h.j.value,
        fairness: h.f.value,
    }
}
