// What every question of a call is about.
ghost use Rattle.format.specs.Section.{Placed};
ghost use Rattle.search.specs.Standing.{placed_once};

use format::Problem;

// A problem that stands in its file.
#[derive(Clone, Copy)]
pub struct Asked<'a> {
    pub file: &'a [u8],
    pub problem: Problem,
    pub ghost placed: { Placed file.now problem } by { placed_once file.now problem },
}
