//! The lines of a text.
ghost use Rattle.std.specs.Prelude.{◌≡◌, ◌++◌, ◌∷◌, ◌==◌, [], MatchOption};
ghost use Rattle.std.specs.List.{position};
ghost use Rattle.session_wire.specs.Steps.{IsLine};
ghost use Rattle.client_talk.specs.Lines.{lines_of, Splits};

// Where the first line ends.
fn break_of(text: &[u8]) -> Option<usize>
    ensures { result ≡ position (λ b. b == 10) text.now }
{
    text.iter().position(|b| *b == b'\n')
}

/// The first line without its end, and what follows it, where there is a line end.
pub(crate) fn split_line(text: &[u8]) -> Option<(&[u8], &[u8])>
    ensures { MatchOption result (IsLine text.now) (λ x. IsLine x.0.now × (text.now ≡ x.0.now ++ 10 ∷ x.1.now)) }
{
    let end = break_of(text)?;
    let (line, rest) = text.split_at(end);
    let (_, after) = rest.split_at(1);
    Some((line, after))
}

/// The first line of a text and what follows it. The last line may have no line end.
pub(crate) fn front_line(text: &[u8]) -> Option<(&[u8], &[u8])>
    ensures { MatchOption result (lines_of text.now ≡ []) (λ x. Splits text.now x.0.now x.1.now) }
{
    if text.is_empty() {
        return None;
    }
    match split_line(text) {
        Some((line, after)) => Some((line, after)),
        None => Some(text.split_at(text.len())),
    }
}
