//! The words of a line, one space apart.
ghost use Rattle.std.specs.Prelude.{◌≡◌, ◌==◌, None, Some, MatchOption};
ghost use Rattle.std.specs.List.{position};
ghost use Rattle.roam_tokens.specs.Words.{first_word};

// The place of the first space.
fn space_in(text: &[u8]) -> Option<usize>
    ensures place { result ≡ position (λ byte. byte == 0x20) text.now }
{
    text.iter().position(|byte| *byte == b' ')
}

/// Returns the bytes before the first space and those behind it, and `None` without a space.
pub fn first_word(text: &[u8]) -> Option<(&[u8], &[u8])>
    ensures word { MatchOption result (first_word text.now ≡ None) (λ p. first_word text.now ≡ Some (p.0.now, p.1.now)) }
{
    let space = space_in(text)?;
    Some((text.split_at(space).0, text.split_at(space + 1).1))
}
