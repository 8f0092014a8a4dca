// How many positions a set has.
ghost use Rattle.std.specs.Prelude.{◌≡◌, ◌≤◌, length};
ghost use Rattle.meaning.specs.Rules.{size};

// How many of the marks of a set are set. No method of `Marks`: it would stand in `search`, below the laws of sets that it is proved by.
pub fn count(marks: &[bool]) -> usize
    ensures { (result ≡ size marks.now) × (result ≤ length marks.now) }
{
    marks.iter().filter(|on| **on).count()
}
