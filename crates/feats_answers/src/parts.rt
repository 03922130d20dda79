//! The parts of packages that a word names.
ghost use Rattle.std.specs.Prelude.{◌≡◌, Ok, IfOk, IfErr, map, string_bytes};
ghost use Rattle.cargo_workspaces.specs.WorkspaceView.{workspace_text};
ghost use Rattle.cargo_plans.specs.WordsView.{words_text};
ghost use Rattle.cargo_plans.specs.built_parts.BuiltViews.{is_built_in};
ghost use Rattle.feature_labels.specs.Names as labels;
ghost use Rattle.plan_names.specs.Faults.{parts_named};
ghost use Rattle.plan_names.specs.Views.{named_text, part_text};
ghost use Rattle.plan_rows.specs.platforms.HeldSpecs.{holds_on};
ghost use Rattle.plan_whys.specs.StepViews.{spot_text};
ghost use Rattle.feats_files.specs.Messages.{Says};
ghost use Rattle.feats_answers.specs.NameMessages.{IsNameRefusal};
ghost use Rattle.feats_answers.specs.Parts as spec;

use crate::name_messages::name_refused;
use cargo_plans::built_parts::BuiltParts;
use cargo_plans::{PlanWords, Side};
use cargo_workspaces::Workspace;
use feats_files::Fault;
use feats_why::spot_label;
use feature_labels::FeatureLabel;
use plan_names::{Named, Part, parts_named};
use plan_rows::platforms::HeldSpecs;
use plan_whys::Spot;
use plan_words::choose;
use std::alloc::{AllocError, Global};

/// Returns the label of `part`.
pub(crate) fn label_of(part: Part<'_>) -> FeatureLabel<'_>
    ensures { labels.label_of result ≡ spec.label_of_part (part_text part.entry) }
{
    match part {
        Part::Package => FeatureLabel::Base,
        Part::Feature(name) => FeatureLabel::Named(name),
        Part::Dependency(name) => FeatureLabel::OptionalDependency(name),
    }
}

/// Returns whether `named` is built on the target side or on the host side, by `built`.
pub(crate) fn is_anywhere(built: &BuiltParts<'_>, named: Named<'_>) -> bool
    ensures { result ≡ spec.is_anywhere (is_built_in built.now) (named_text named.entry) }
{
    let label = label_of(named.part);
    built.is_built(Side::Target, named.package, label)
        || built.is_built(Side::Host, named.package, label)
}

/// Returns the spot of `named` on `side`.
pub(crate) fn spot_on(side: Side, named: Named<'_>) -> Spot<'_>
    ensures { spot_text result ≡ spec.spot_on side (named_text named.entry) }
{
    Spot {
        side,
        package: named.package,
        label: label_of(named.part),
    }
}

/// Returns the name of `named`.
pub(crate) fn title_of_part(
    alloc: Global,
    workspace: &Workspace<'_>,
    named: Named<'_>,
) -> Result<String, AllocError>
    ensures { IfOk result (λ title. string_bytes title ≡ spec.title_of_part (workspace_text workspace.now).packages (named_text named.entry)) }
{
    spot_label(alloc, workspace, false, spot_on(Side::Target, named))
}

/// Returns what `word` is called, which names the parts `named`.
pub(crate) fn title_of(
    alloc: Global,
    workspace: &Workspace<'_>,
    word: &str,
    named: &[Named<'_>],
) -> Result<String, AllocError>
    ensures { IfOk result (λ title. string_bytes title ≡ spec.title_of (workspace_text workspace.now).packages word.now (map named_text named.now)) }
{
    match named {
        [one] => title_of_part(alloc, workspace, *one),
        _ => String::from_str(alloc, word),
    }
}

/// Returns the parts that `word` names, where those of the packages `selected` go before others.
fn parts_among<'w>(
    alloc: Global,
    workspace: &'w Workspace<'_>,
    selected: &[usize],
    word: &'w str,
) -> Result<Vec<Named<'w>>, Fault>
    ensures parts { IfOk result (λ named. parts_named (workspace_text workspace.now).packages selected.now word.now ≡ Ok (map named_text named.items)) }
    ensures fault { IfErr result (λ fault. Says fault (IsNameRefusal (workspace_text workspace.now).packages (parts_named (workspace_text workspace.now).packages selected.now word.now))) }
{
    match parts_named(alloc, workspace, selected, word) {
        Ok(named) => Ok(named),
        Err(fault) => Err(name_refused(alloc, workspace, fault)),
    }
}

/// Returns the parts that `word` names in the build of `words`.
pub(crate) fn parts_of<'w>(
    alloc: Global,
    workspace: &'w Workspace<'_>,
    words: &PlanWords<'w, '_, HeldSpecs<'_>>,
    word: &'w str,
) -> Result<Vec<Named<'w>>, Fault>
    ensures parts { IfOk result (λ named. spec.ArePartsOf (workspace_text workspace.now) (words_text holds_on words.now) word.now (map named_text named.items)) }
    ensures fault { IfErr result (λ fault. Says fault (spec.IsPartRefusal (workspace_text workspace.now) (words_text holds_on words.now) word.now)) }
{
    match choose(alloc, workspace, &words.selection) {
        Ok(chosen) => parts_among(alloc, workspace, &chosen.selected, word),
        Err(_) => Err(Fault::Memory),
    }
}
