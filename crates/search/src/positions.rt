// Sets of positions by value.
ghost use Rattle.std.specs.Prelude.{◌≡◌, ◌<◌, replicate, true, false};
ghost use Rattle.meaning.specs.Rules.{without, with_position};

use crate::Marks;

impl Marks {
    // No position.
    pub fn none() -> Marks
        ensures { result.on ≡ replicate 128 false }
    {
        Marks { on: [false; 128] }
    }

    // Every position.
    pub fn all() -> Marks
        ensures { result.on ≡ replicate 128 true }
    {
        Marks { on: [true; 128] }
    }

    // The same set without the position q.
    #[tactic(auto, unfolding(meaning::specs::Rules::without))]
    pub fn without(mut self, q: usize) -> Marks
        requires { q < 128 }
        ensures { result.on ≡ without q self.on }
    {
        self.on[q] = false;
        self
    }

    // The same set with the position q.
    #[tactic(auto, unfolding(meaning::specs::Rules::with_position))]
    pub fn with(mut self, q: usize) -> Marks
        requires { q < 128 }
        ensures { result.on ≡ with_position q self.on }
    {
        self.on[q] = true;
        self
    }
}
