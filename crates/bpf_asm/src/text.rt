//! Lines, comments and margins.

ghost use Rattle.std.specs.Prelude.{◌≡◌, ◌∷◌, [], ◌==◌, ◌<◌, ◌≤◌, length, MatchOption};
ghost use Rattle.std.specs.List.{slice_split, position_or_len, before_first};
ghost use Rattle.bpf_asm.specs.Text.{is_margin, trimmed_front, trimmed_back, trimmed};

#[tactic(auto, using(std::proofs::lemmas::List::Sums::position_or_len_is))]
fn position_or_len(bytes: &[u8], at: u8) -> usize
    ensures { result ≡ position_or_len (λ b. b == at) bytes.now }
{
    for (i, b) in bytes.iter().enumerate() {
        if *b == at {
            return i;
        }
    }
    bytes.len()
}

/// Splits bytes at the first byte equal to `at`. Returns the part before it and the part after it, or all bytes and `None`.
#[tactic(auto, using(std::proofs::lemmas::List::Splits::slice_split_first))]
pub fn cut(bytes: &[u8], at: u8) -> (&[u8], Option<&[u8]>)
    ensures parts { MatchOption result.1 (slice_split (λ b. b == at) bytes.now ≡ result.0.now ∷ [])
        (λ rest. slice_split (λ b. b == at) bytes.now ≡ result.0.now ∷ slice_split (λ b. b == at) rest.now) }
    ensures front { result.0.now ≡ before_first (λ b. b == at) bytes.now }
    ensures shorter { MatchOption result.1 (length result.0.now ≤ length bytes.now) (λ rest. length rest.now < length bytes.now) }
{
    let i = position_or_len(bytes, at);
    if i < bytes.len() {
        (&bytes[..i], Some(&bytes[i + 1..]))
    } else {
        (bytes, None)
    }
}

/// Returns true for a space or a tab.
pub fn margin(b: u8) -> bool
    ensures { result ≡ is_margin b }
{
    b == b' ' || b == b'\t'
}

#[tactic(auto, using(std::proofs::lemmas::List::Sums::prefix_len_is))]
fn trim_front(bytes: &[u8]) -> &[u8]
    ensures { result.now ≡ trimmed_front bytes.now }
{
    for (i, b) in bytes.iter().enumerate() {
        if !margin(*b) {
            return &bytes[i..];
        }
    }
    &[]
}

fn trim_back(bytes: &[u8]) -> &[u8]
    ensures { result.now ≡ trimmed_back bytes.now }
{
    let mut n = bytes.len();
    while n > 0 && margin(bytes[n - 1]) {
        n -= 1;
    }
    &bytes[..n]
}

/// Removes the spaces and tabs at both ends.
#[tactic(auto, unfolding(crate::specs::Text::trimmed))]
pub fn trim(bytes: &[u8]) -> &[u8]
    ensures { result.now ≡ trimmed bytes.now }
{
    trim_back(trim_front(bytes))
}
