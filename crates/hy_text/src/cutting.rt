//! Texts cut at a byte.

ghost use Rattle.std.specs.Prelude.{◌≡◌, ◌<◌, ◌∷◌, [], length, MatchOption, IfSome};
ghost use Rattle.hy_text.specs.Cuts.{cut_at};

/// The first piece of a text that is cut at each such byte, and what stands behind that byte.
/// `None` where the text has no such byte. In time linear in the piece.
#[inline(always)]
pub fn cut(text: &[u8], byte: u8) -> Option<(&[u8], &[u8])>
    ensures pieces { MatchOption result (cut_at byte text.now ≡ text.now ∷ [])
        (λ cut. cut_at byte text.now ≡ cut.0.now ∷ cut_at byte cut.1.now) }
    ensures shorter { IfSome result (λ cut. length cut.1.now < length text.now) }
{
    for (i, b) in text.iter().enumerate() {
        if *b == byte {
            let (piece, behind) = text.split_at(i);
            let (_, rest) = behind.split_at(1);
            return Some((piece, rest));
        }
    }
    None
}
