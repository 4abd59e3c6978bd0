//! Cutting texts at a byte.

ghost use Rattle.std.specs.Prelude.{◌≡◌, ◌==◌, ◌<◌, ◌∷◌, [], length, position, IfSome, IfNone};
ghost use Rattle.report_text.specs.Stages.{words_in};

/// The first word of a text, and the text after the space that ends it.
#[derive(Clone, Copy)]
pub(crate) struct WordCut<'a> {
    pub(crate) word: &'a [u8],
    pub(crate) rest: &'a [u8],
}

/// Cuts a text at its first space, if it has one.
pub(crate) fn cut_word(text: &[u8]) -> Option<WordCut<'_>>
    ensures cut { IfSome result (λ cut. words_in text.now ≡ cut.word.now ∷ words_in cut.rest.now) }
    ensures shorter { IfSome result (λ cut. length cut.rest.now < length text.now) }
    ensures last { IfNone result (words_in text.now ≡ text.now ∷ []) }
{
    let Some(at) = place_of(text, b' ') else {
        return None;
    };
    let (word, rest) = text.split_at(at);
    let (_, rest) = rest.split_at(1);
    Some(WordCut { word, rest })
}

/// The index of the first such byte, if there is one.
pub(crate) fn place_of(text: &[u8], at: u8) -> Option<usize>
    ensures { result ≡ position (λ byte. byte == at) text.now }
{
    text.iter().position(|byte| *byte == at)
}
