//! A line is words with one space between two of them; a list is items with one comma between two of them.

ghost use Rattle.std.specs.Prelude.{◌≡◌, ◌≢◌, ◌++◌, ◌∷◌, All, IfSome, IfNone};

/// What stands before the first of a mark, and what after it.
pub fn split_once(text: &[u8], mark: u8) -> Option<(&[u8], &[u8])>
    ensures whole { IfSome result (λ parts. text.now ≡ parts.0.now ++ mark ∷ parts.1.now) }
    ensures first { IfSome result (λ parts. All (λ byte. byte ≢ mark) parts.0.now) }
    ensures none { IfNone result (All (λ byte. byte ≢ mark) text.now) }
{
    let at = text.iter().position(|&byte| byte == mark)?;
    Some((&text[..at], &text[at + 1..]))
}

/// What stands before the last of a mark, and what after it.
pub fn rsplit_once(text: &[u8], mark: u8) -> Option<(&[u8], &[u8])>
    ensures whole { IfSome result (λ parts. text.now ≡ parts.0.now ++ mark ∷ parts.1.now) }
    ensures last { IfSome result (λ parts. All (λ byte. byte ≢ mark) parts.1.now) }
    ensures none { IfNone result (All (λ byte. byte ≢ mark) text.now) }
{
    let at = text.iter().rposition(|&byte| byte == mark)?;
    Some((&text[..at], &text[at + 1..]))
}
