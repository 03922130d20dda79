//! The forms of the answer to `diff`.
ghost use Rattle.std.specs.Prelude.{◌≡◌};
ghost use Rattle.feats.specs.comparisons.differences.Forms as spec;
ghost use Rattle.feats_words.specs.Views.{question_text};

use feats_words::{CommandArguments, Format, Question};

/// The form of the answer to `diff`.
#[derive(Clone, Copy, PartialEq, Eq, Debug)]
pub enum Form {
    /// Lines of text.
    Lines,
    /// JSON, an object a line.
    Objects,
    /// The data of a page, as JSON.
    Page,
}

/// Returns the form that `arguments` ask for.
pub(crate) fn form_of(arguments: &CommandArguments<'_>) -> Form
    ensures { result ≡ spec.form_of (question_text arguments.now.question) arguments.now.format }
{
    match (arguments.question, arguments.format) {
        (Question::Report, _) => Form::Page,
        (_, Format::Text) => Form::Lines,
        (_, Format::Json) => Form::Objects,
    }
}
