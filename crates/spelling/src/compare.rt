// How a word or a file starts.
ghost use Rattle.std.specs.Prelude.{◌≡◌};
ghost use Rattle.spelling.specs.Words.{is_option, is_circuit};

// Whether a word starts with two dashes.
pub fn is_option(word: &[u8]) -> bool
    ensures { result ≡ is_option word.now }
{
    word.starts_with(b"--")
}

// Whether a file starts as a circuit does: with the bytes of `aag`.
pub fn is_circuit(file: &[u8]) -> bool
    ensures { result ≡ is_circuit file.now }
{
    file.starts_with(b"aag")
}
