//! The texts about parts that aren't built.
ghost use Rattle.std.specs.Prelude.{◌≡◌, List, IfOk, map, option_map, string_bytes};
ghost use Rattle.std.specs.List.{AllZip};
ghost use Rattle.cargo_plans.specs.Plans.{IsPlanOf};
ghost use Rattle.cargo_plans.specs.WordsView.{words_text};
ghost use Rattle.cargo_plans.specs.plan_steps.PlanViews.{plan_text};
ghost use Rattle.cargo_workspaces.specs.Workspaces.{Text};
ghost use Rattle.cargo_workspaces.specs.WorkspaceView.{workspace_text};
ghost use Rattle.plan_rows.specs.platforms.HeldSpecs.{holds_on};
ghost use Rattle.plan_names.specs.wider.widenings.Widenings.{widened};
ghost use Rattle.plan_names.specs.wider.texts.Lines.{head_line};
ghost use Rattle.feats_why_not.specs.PartView.{part_text};
ghost use Rattle.feats_why_not.specs.Texts as spec;
ghost use Rattle.feats_why_not.specs.Typed as words_to_type;
ghost use Rattle.feats_why_not.specs.inner.Lists as lists;
ghost use Rattle.feats_why_not.specs.inner.Lists.{joined as joined_texts, optional_texts, texts_of};

use crate::base::{Base, sections_by};
use crate::builds::{builds_of, messages_about};
use crate::joined::joined;
use crate::parts::{OffPart, titles_of};
use cargo_plans::{Plan, PlanWords};
use cargo_workspaces::Workspace;
use feats_words::Format;
use plan_names::wider::texts::push_head;
use plan_names::wider::widenings::Widening;
use plan_rows::platforms::HeldSpecs;
use std::alloc::{AllocError, Global};

/// Returns the line that says that `name` is off, or the message about it.
fn head_line_of(alloc: Global, name: &str, message: Option<&str>) -> Result<Vec<u8>, AllocError>
    ensures { IfOk result (λ text. text.items ≡ head_line name.now (option_map (λ t. t.now) message.entry)) }
{
    let mut text = Vec::new(alloc);
    push_head(alloc, &mut text, name, message)?;
    Ok(text)
}

/// Returns the beginning of the text about a part with the title `title`, which has `message` if it is on and isn't built.
fn head_by(
    alloc: Global,
    form: Format,
    title: &str,
    message: &Option<String>,
) -> Result<Vec<u8>, AllocError>
    ensures { IfOk result (λ text. text.items ≡ spec.head_by form title.now (option_map string_bytes message.now)) }
{
    match (form, message) {
        (Format::Text, Some(message)) => head_line_of(alloc, title, Some(message.as_str())),
        (Format::Text, None) => head_line_of(alloc, title, None),
        (Format::Json, _) => Ok(Vec::new(alloc)),
    }
}

/// Returns the beginnings of the texts about parts with these titles and messages.
fn heads_by(
    alloc: Global,
    form: Format,
    titles: &[String],
    messages: &[Option<String>],
) -> Result<Vec<Vec<u8>>, AllocError>
    ensures { IfOk result (λ heads. texts_of heads.items ≡ lists.heads_by form (map string_bytes titles.now) (optional_texts messages.now)) }
{
    let mut heads = Vec::with_capacity(alloc, titles.len())?;
    for (title, message) in titles.iter().zip(messages) {
        heads.push(head_by(alloc, form, title.as_str(), message)?)?;
    }
    Ok(heads)
}

/// Returns the beginnings of the texts about `parts`, by the plan of the build `base`.
fn heads_of(
    alloc: Global,
    form: Format,
    base: Base<'_, '_, '_, '_, '_, '_>,
    parts: &[OffPart<'_>],
) -> Result<Vec<Vec<u8>>, AllocError>
    ensures { IfOk result (λ texts. texts_of texts.items ≡ map (spec.head_text form (workspace_text base.entry.workspace.now) (words_text holds_on base.entry.words.now) (plan_text base.entry.plan.now)) (map part_text parts.now)) }
{
    let workspace = base.workspace;
    let titles = titles_of(alloc, workspace, parts)?;
    let builds = builds_of(alloc, workspace, base.words, base.plan)?;
    let messages = messages_about(alloc, workspace, &builds, parts)?;
    heads_by(alloc, form, &titles, &messages)
}

/// Returns `texts`, each followed by the section about `widening` of the build `base` and the part at the same place in `parts`.
fn with_sections(
    alloc: Global,
    form: Format,
    base: Base<'_, '_, '_, '_, '_, '_>,
    widening: Widening,
    parts: &[OffPart<'_>],
    texts: &[Vec<u8>],
) -> Result<Vec<Vec<u8>>, AllocError>
    requires { IsPlanOf (workspace_text base.workspace.now) (words_text holds_on base.words.now) (plan_text base.plan.now) }
    ensures { IfOk result (λ longer. (sections : List Text)
        × AllZip (spec.IsSection form base.entry.alone (workspace_text base.entry.workspace.now) (words_text holds_on base.entry.words.now) (widened (holds_on base.entry.every.now) widening (words_text holds_on base.entry.words.now)) widening) (map part_text parts.now) sections
        × (texts_of longer.items ≡ joined_texts (texts_of texts.now) sections)) }
{
    let sections = sections_by(alloc, form, base, widening, parts)?;
    joined(alloc, texts, &sections)
}

/// Returns whether there is one part.
fn is_single(parts: &[OffPart<'_>]) -> bool
    ensures { result ≡ words_to_type.is_single (map part_text parts.now) }
{
    match parts {
        [_] => true,
        _ => false,
    }
}

/// Returns a text about each of `parts`, as `why_not_texts` does. It makes the plans of the widenings also if there are no parts.
fn texts_about<'n, 's>(
    alloc: Global,
    form: Format,
    workspace: &Workspace<'_>,
    words: &PlanWords<'_, 'n, HeldSpecs<'s>>,
    plan: &Plan<'_>,
    every: &'n HeldSpecs<'s>,
    parts: &[OffPart<'_>],
) -> Result<Vec<Vec<u8>>, AllocError>
    requires { IsPlanOf (workspace_text workspace.now) (words_text holds_on words.now) (plan_text plan.now) }
    ensures { IfOk result (λ texts. AllZip (spec.IsWhyNotText form (words_to_type.is_single (map part_text parts.now)) (workspace_text workspace.now) (words_text holds_on words.now) (holds_on every.now)) (map part_text parts.now) (texts_of texts.items)) }
{
    let base = Base {
        workspace,
        words,
        plan,
        every,
        alone: is_single(parts),
    };
    let mut texts = heads_of(alloc, form, base, parts)?;
    let all = Widening::all();
    for widening in &all {
        texts = with_sections(alloc, form, base, *widening, parts, &texts)?;
    }
    Ok(texts)
}

/// Returns a text about each of `parts`, which aren't built by `words`, whose plan is `plan`. For each widening of the selection it says
/// whether the part is built there, and why; that it is on there and isn't built; that it is off; or why there is no plan. If a part is
/// off with all of them together, the last line of its text says that no choice of members, features of members, tests and platforms
/// turns it on. `every` is the platform on which each platform spec of `workspace` holds. If there are no parts, no plan is made; else a
/// widening that adds to the words needs one plan. If there is one part, a widening in which it is built ends with the words to type; each
/// of the words that are tried needs a plan.
pub fn why_not_texts<'n, 's>(
    alloc: Global,
    form: Format,
    workspace: &Workspace<'_>,
    words: &PlanWords<'_, 'n, HeldSpecs<'s>>,
    plan: &Plan<'_>,
    every: &'n HeldSpecs<'s>,
    parts: &[OffPart<'_>],
) -> Result<Vec<Vec<u8>>, AllocError>
    requires { IsPlanOf (workspace_text workspace.now) (words_text holds_on words.now) (plan_text plan.now) }
    ensures { IfOk result (λ texts. AllZip (spec.IsWhyNotText form (words_to_type.is_single (map part_text parts.now)) (workspace_text workspace.now) (words_text holds_on words.now) (holds_on every.now)) (map part_text parts.now) (texts_of texts.items)) }
{
    match parts {
        [] => Ok(Vec::new(alloc)),
        [_, ..] => texts_about(alloc, form, workspace, words, plan, every, parts),
    }
}
