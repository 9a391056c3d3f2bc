//! The first word of a text, and what follows it.
ghost use Rattle.std.specs.Prelude.{◌≡◌, ◌≤◌, ◌≢◌, ◌++◌, ◌∷◌, [], length, take, drop, MatchOption, List, ℕ};
ghost use Rattle.session_wire.specs.Words.{IsWord, EndsWord};

// How many bytes stand in front of the first space.
fn word_len(text: &[u8]) -> usize
    ensures within { result ≤ length text.now }
    ensures word { IsWord (take result text.now) }
    ensures ends { EndsWord (drop result text.now) }
{
    for (i, b) in text.iter().enumerate() {
        if *b == b' ' {
            return i;
        }
    }
    text.len()
}

// What follows the space at the front.
fn behind_space(text: &[u8]) -> Option<&[u8]>
    requires { EndsWord text.now }
    ensures { MatchOption result (text.now ≡ []) (λ rest. text.now ≡ 32 ∷ rest.now) }
{
    if text.is_empty() {
        return None;
    }
    let (_, rest) = text.split_at(1);
    Some(rest)
}

/// The first word, which a space ends, and what follows the space; none where there is no space.
pub(crate) fn front_word(text: &[u8]) -> Option<(&[u8], &[u8])>
    ensures { MatchOption result (IsWord text.now) (λ x. IsWord x.0.now × (text.now ≡ x.0.now ++ 32 ∷ x.1.now)) }
{
    let (word, behind) = text.split_at(word_len(text));
    match behind_space(behind) {
        None => None,
        Some(rest) => Some((word, rest)),
    }
}

/// What follows these bytes at the front of a text.
pub(crate) fn after<'a>(text: &'a [u8], front: &[u8]) -> Option<&'a [u8]>
    ensures { MatchOption result ((rest : List ℕ) → text.now ≢ front.now ++ rest) (λ rest. text.now ≡ front.now ++ rest.now) }
{
    text.strip_prefix(front)
}
