//! Numbers as words.
ghost use Rattle.std.specs.Prelude.{◌≡◌, ◌≢◌, ℕ, ◌^◌, ◌<◌, MatchOption};
ghost use Rattle.std.specs.Fmt.{decimal};
ghost use Rattle.cli_words.specs.Padded.{is_padded};

/// The number whose decimal digits the text is, with no sign and no leading zero. `None` where it is not the digits of
/// a number of 64 bits.
pub(crate) fn number(text: &str) -> Option<u64>
    ensures cases { MatchOption result ((n : ℕ) → n < 2 ^ 64 → text.now ≢ decimal n) (λ n. (n < 2 ^ 64) × (text.now ≡ decimal n)) }
{
    if has_padding(text.as_bytes()) {
        return None;
    }
    text.parse::<u64>().ok()
}

/// Whether the text begins with a plus, or with a zero that isn't all of it: std reads both as parts of a number.
fn has_padding(text: &[u8]) -> bool
    ensures { result ≡ is_padded text.now }
{
    match text.first() {
        Some(first) => *first == b'+' || (*first == b'0' && text.len() > 1),
        None => false,
    }
}
