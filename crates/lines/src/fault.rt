// The line that a reader of a text refuses.

// The place where the first line at fault starts.
#[derive(Clone, Copy)]
pub struct Fault {
    pub at: usize,
}
