//! The answer to a question.
ghost use Rattle.std.specs.Prelude.{◌≡◌};
ghost use Rattle.feats_answers.specs.AnswerTexts as spec;
ghost use Rattle.feats_answers.specs.AnswerViews.{answer_text};

/// The answer to a question.
#[derive(Drop)]
pub struct Answer {
    pub text: Vec<u8>,
    /// True for `why` if nothing that the word names is built, for `why-not` if all of it is on, for `tree` if what the word names isn't built
    /// or is off, and for `check` if a rule is broken.
    pub is_negative: bool,
}

/// Returns the answer with this text, which isn't negative.
pub(crate) fn positive(text: Vec<u8>) -> Answer
    ensures { answer_text result ≡ spec.positive text.items }
{
    Answer {
        text,
        is_negative: false,
    }
}

/// Returns the negative answer with this text.
pub(crate) fn negative(text: Vec<u8>) -> Answer
    ensures { answer_text result ≡ spec.negative text.items }
{
    Answer {
        text,
        is_negative: true,
    }
}
