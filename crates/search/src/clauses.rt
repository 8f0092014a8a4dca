// What a search is about: the clauses of a question.
ghost use Rattle.search.specs.Places.{Sound};
ghost use Rattle.search.specs.Standing.{sound_once};

use crate::Parts;

// The clauses of a question: where they stand in the file, and which lemmas are marked.
#[derive(Clone, Copy)]
pub struct Clauses<'a> {
    pub file: &'a [u8],
    pub on: &'a [bool; 128],
    pub parts: Parts,
    pub ghost sound: { Sound file.now parts } by { sound_once file.now parts },
}
