// The gates that can be worked out: round after round, every gate whose two literals are given or worked out already.
ghost use Rattle.std.specs.Prelude.{◌≡◌, cond, ◌<◌, ◌≤◌};
ghost use Rattle.uses.specs.Solve.{ready, after_step, InReach, Swept, Solved};

// Where the two literals of each gate come from, lent: no array is moved. What is worked out is marked beside it: 0 is not worked out,
// and any other mark is.
// Arrays of a fixed size: fixed memory and no heap; two lists and not one of pairs, since the theorem `works_is` speaks of two.
#[derive(Clone, Copy)]
pub struct Gates<'a> {
    pub left: &'a [u16; 10923],
    pub right: &'a [u16; 10923],
    pub count: usize,
    pub ghost few: { count ≤ 10922 },
    pub ghost left_in: { InReach left.now count },
    pub ghost right_in: { InReach right.now count },
}

impl Gates<'_> {
    // Gate i is not worked out, and both its literals are.
    fn is_ready(&self, done: &[u8; 10925], i: usize) -> bool
        requires { i < self.now.count }
        ensures { result ≡ ready self.now.left.now self.now.right.now done.now i }
    {
        if done[i + 1] != 0 {
            return false;
        }
        done[usize::from(self.left[i])] != 0 && done[usize::from(self.right[i])] != 0
    }

    // Gate i, where it is ready, is worked out: 1, and else 0.
    fn step(&self, done: &mut [u8; 10925], i: usize) -> usize
        requires { i < self.now.count }
        ensures { (result ≡ cond (ready self.now.left.now self.now.right.now done.old i) 1 0) × (done.new ≡ after_step self.now.left.now self.now.right.now done.old i) }
    {
        if self.is_ready(done, i) {
            done[i + 1] = 1;
            return 1;
        }
        0
    }

    // One round; how many gates it works out.
    fn sweep(&self, done: &mut [u8; 10925]) -> usize
        ensures { Swept self.now.left.now self.now.right.now self.now.count done.old done.new result }
    {
        let mut made: usize = 0;
        for i in 0..self.count {
            made += self.step(done, i);
        }
        made
    }

    // Rounds until one works no gate out: a loop with no count, since how many there are is not known before.
    pub fn solve(&self, done: &mut [u8; 10925])
        ensures { Solved self.now.left.now self.now.right.now self.now.count done.old done.new }
    {
        while 0 < self.sweep(done) {}
    }
}
