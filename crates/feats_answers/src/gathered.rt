//! Answers of several texts.
ghost use Rattle.std.specs.Prelude.{◌≡◌, ◌++◌, IfOk, OnOk, map, flat_map, string_bytes};
ghost use Rattle.cargo_workspaces.specs.WorkspaceView.{workspace_text};
ghost use Rattle.plan_names.specs.Views.{named_text};
ghost use Rattle.feats_answers.specs.AnswerViews.{answer_text, texts_of};
ghost use Rattle.feats_answers.specs.Gathered as spec;

use crate::answer::{Answer, negative, positive};
use crate::parts::title_of;
use cargo_workspaces::Workspace;
use feats_words::Format;
use plan_names::Named;
use shown_texts::escaped;
use std::alloc::{AllocError, Global};

/// Appends each of `more`, after what is between two texts.
fn push_more(text: &mut Vec<u8>, format: Format, more: &[Vec<u8>]) -> Result<(), AllocError>
    ensures { OnOk result (text.new.items ≡ text.old.items ++ flat_map (spec.after_gap format) (texts_of more.now)) }
{
    for one in more {
        if format == Format::Text {
            text.push(b'\n')?;
        }
        text.extend_from_slice(one)?;
    }
    Ok(())
}

/// Returns `texts`, with an empty line between two of them, or with nothing between objects.
fn separated(alloc: Global, format: Format, texts: &[Vec<u8>]) -> Result<Vec<u8>, AllocError>
    ensures { IfOk result (λ text. text.items ≡ spec.separated format (texts_of texts.now)) }
{
    let mut text = Vec::new(alloc);
    if let [first, more @ ..] = texts {
        text.extend_from_slice(first)?;
        push_more(&mut text, format, more)?;
    }
    Ok(text)
}

/// Returns the line that says no about `title`, with this end. Control characters in the title are escaped.
pub(crate) fn no_line(
    alloc: Global,
    format: Format,
    title: String,
    end: &str,
) -> Result<Vec<u8>, AllocError>
    ensures { IfOk result (λ text. text.items ≡ spec.no_line format (string_bytes title) end.now) }
{
    match format {
        Format::Text => {
            let mut line = escaped(alloc, title.as_str())?;
            line.push_str(end)?;
            Ok(line.into_bytes())
        }
        Format::Json => Ok(Vec::new(alloc)),
    }
}

/// Returns the answer of `texts`. If there is none, it says no about `word`, which names the parts `named`; `end` ends the line.
pub(crate) fn gathered(
    alloc: Global,
    format: Format,
    workspace: &Workspace<'_>,
    word: &str,
    named: &[Named<'_>],
    end: &str,
    texts: &[Vec<u8>],
) -> Result<Answer, AllocError>
    ensures { IfOk result (λ answer. answer_text answer ≡ spec.gathered format (workspace_text workspace.now).packages word.now (map named_text named.now) end.now (texts_of texts.now)) }
{
    if texts.is_empty() {
        let title = title_of(alloc, workspace, word, named)?;
        return Ok(negative(no_line(alloc, format, title, end)?));
    }
    Ok(positive(separated(alloc, format, texts)?))
}
