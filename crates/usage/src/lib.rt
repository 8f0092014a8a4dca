// What the program `trim` says of its words: what is wrong with them, how it is used, and its version.
#![tactic(auto)]

mod texts;

pub use texts::{
    circuit_alone, fault_line, help_text, not_opened, not_read, put_word, version_line,
};
