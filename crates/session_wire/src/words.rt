//! Words at the front of a line.
ghost use Rattle.std.specs.Prelude.{◌≡◌, ◌≤◌, ◌++◌, ◌∷◌, [], length, take, drop, IfSome, IfNone, IfOk, IfErr, MatchOption, IsTrue, ◌↔◌, ◌≢◌, List, ℕ};
ghost use Rattle.session_wire.specs.Words.{IsWord, EndsWord};
ghost use Rattle.session_wire.specs.Parts.{StopsAt};

// How many bytes stand in front of the first space.
fn word_len(text: &[u8]) -> usize
    ensures within { result ≤ length text.now }
    ensures word { IsWord (take result text.now) }
    ensures ends { EndsWord (drop result text.now) }
{
    for (i, b) in text.iter().enumerate() {
        if *b == b' ' {
            return i;
        }
    }
    text.len()
}

// The word that the text begins with, which may be empty, and what follows it.
pub(crate) fn split_word(text: &[u8]) -> (&[u8], &[u8])
    ensures word { IsWord result.0.now }
    ensures ends { EndsWord result.1.now }
    ensures parts { text.now ≡ result.0.now ++ result.1.now }
{
    text.split_at(word_len(text))
}

// The word behind the space at the front, and what follows it.
pub(crate) fn word_at(line: &[u8]) -> Option<(&[u8], &[u8])>
    requires { EndsWord line.now }
    ensures some { IfSome result (λ x. IsWord x.0.now × EndsWord x.1.now × (line.now ≡ 32 ∷ (x.0.now ++ x.1.now))) }
    ensures none { IfNone result (line.now ≡ []) }
{
    if line.is_empty() {
        return None;
    }
    let (_, from_word) = line.split_at(1);
    let (word, rest) = split_word(from_word);
    Some((word, rest))
}

pub(crate) fn is_word(word: &[u8], wanted: &[u8]) -> bool
    ensures { IsTrue result ↔ (word.now ≡ wanted.now) }
{
    word == wanted
}

// What follows these bytes at the front of a word.
pub(crate) fn after<'a>(word: &'a [u8], front: &[u8]) -> Option<&'a [u8]>
    ensures { MatchOption result ((rest : List ℕ) → word.now ≢ front.now ++ rest) (λ rest. word.now ≡ front.now ++ rest.now) }
{
    word.strip_prefix(front)
}

// Nothing is left of the line.
pub(crate) fn end_at(line: &[u8]) -> Result<(), usize>
    requires { EndsWord line.now }
    ensures ok { IfOk result (λ _. line.now ≡ []) }
    ensures err { IfErr result (StopsAt (λ rest. rest ≡ []) line.now) }
{
    match word_at(line) {
        None => Ok(()),
        Some(_) => Err(line.len() - 1),
    }
}
