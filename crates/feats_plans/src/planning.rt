//! The plan of a workspace, which is passed to a visitor.
ghost use Rattle.std.specs.Prelude.{◌≡◌, IfOk, IfErr, map};
ghost use Rattle.cargo_workspaces.specs.WorkspaceView.{workspace_text};
ghost use Rattle.plan_rows.specs.platforms.DeclaredSpecs.{declared_specs};
ghost use Rattle.plan_rows.specs.platforms.HeldSpecs.{holds_on};
ghost use Rattle.plan_rows.specs.platforms.Views.{declared_text};
ghost use Rattle.plan_words.specs.Selections.{choice_text, selection_text};
ghost use Rattle.plan_words.specs.TargetChoices.{kind_text, target_choice_text};
ghost use Rattle.cargo_plans.specs.WordsView.{words_text};
ghost use Rattle.feats_words.specs.Views.{arguments_text, kind_words_text};
ghost use Rattle.feats_files.specs.Messages.{Says};
ghost use Rattle.feats_plans.specs.BasisView.{basis_text};
ghost use Rattle.feats_plans.specs.Inputs.{inputs_text};
ghost use Rattle.feats_plans.specs.Planning.{AfterPlan, AfterPlatforms, IsPlanRefusal, IsPlatformRefusal};
ghost use Rattle.feats_plans.specs.Selections as spec;

use crate::basis::Basis;
use crate::inputs::PlanFiles;
use crate::planned::{PlanVisitor, Planned};
use cargo_manifests::resolvers::Resolver;
use cargo_plans::{KindWords, PackageChoice, PlanWords, Selection, TargetChoice, plan};
use cargo_workspaces::Workspace;
use feats_files::plan_messages::{is_memory, plan_refused};
use feats_files::{Fault, held_on, held_on_each};
use feats_words::{CommandArguments, KindWords as KindArguments};
use plan_rows::platforms::{DeclaredSpec, HeldSpecs, declared_specs};
use std::alloc::Global;

/// Returns the packages that `arguments` select.
fn choice<'s>(arguments: &'s CommandArguments<'_>) -> PackageChoice<'s>
    ensures { choice_text result ≡ spec.choice (arguments_text arguments.now) }
{
    if arguments.workspace {
        return match arguments.exclude.as_slice() {
            [] => PackageChoice::Workspace,
            words => PackageChoice::AllBut(words),
        };
    }
    match arguments.packages.as_slice() {
        [] => PackageChoice::Default,
        words => PackageChoice::Named(words),
    }
}

/// Returns the packages and features that `arguments` ask for, by this version of the resolver.
fn selection<'s>(arguments: &'s CommandArguments<'_>, version: Resolver) -> Selection<'s>
    ensures { selection_text result ≡ spec.selection (arguments_text arguments.now) version }
{
    Selection {
        packages: choice(arguments),
        features: &arguments.features,
        all_features: arguments.all_features,
        no_default_features: arguments.no_default_features,
        split: version.is_split(),
    }
}

/// Returns the words of a kind of targets, where `all` is whether all targets are chosen.
fn kind_words<'s>(all: bool, words: &'s KindArguments<'_>) -> KindWords<'s>
    ensures { kind_text result ≡ spec.kind_words all (kind_words_text words.now) }
{
    KindWords {
        all: all || words.all,
        names: &words.names,
    }
}

/// Returns the words for tests. The word for all of them is left out, if it has its old meaning.
fn test_words<'s>(arguments: &'s CommandArguments<'_>) -> KindWords<'s>
    ensures { kind_text result ≡ spec.test_words (arguments_text arguments.now) }
{
    let words = &arguments.target_words;
    KindWords {
        all: words.all_targets || words.tests.all && !arguments.has_old_tests,
        names: &words.tests.names,
    }
}

/// Returns the targets that `arguments` choose.
fn target_choice<'s>(arguments: &'s CommandArguments<'_>) -> TargetChoice<'s>
    ensures { target_choice_text result ≡ spec.target_choice (arguments_text arguments.now) }
{
    let words = &arguments.target_words;
    let all = words.all_targets;
    TargetChoice {
        test: arguments.test,
        lib: all || words.lib,
        needs_lib: words.lib && !all,
        bins: kind_words(all, &words.bins),
        examples: kind_words(all, &words.examples),
        tests: test_words(arguments),
        benches: kind_words(all, &words.benches),
    }
}

/// Returns what `arguments` say about a plan, where `host` and `targets` are the specs that hold.
fn words_by<'s, 'n, 'h>(
    arguments: &'s CommandArguments<'_>,
    version: Resolver,
    host: &'n HeldSpecs<'h>,
    targets: &'n [HeldSpecs<'h>],
) -> PlanWords<'s, 'n, HeldSpecs<'h>>
    ensures { words_text holds_on result ≡ spec.words_of (arguments_text arguments.now) version (holds_on host.now) (map holds_on targets.now) }
{
    PlanWords {
        selection: selection(arguments, version),
        choice: target_choice(arguments),
        host,
        targets,
    }
}

/// Returns the output of `visitor` for the plan of `words`. `specs` are the platform specs of the workspace.
fn planned_output<'w, 'n, 's, V: PlanVisitor>(
    alloc: Global,
    arguments: &CommandArguments<'w>,
    files: &PlanFiles<'n>,
    workspace: &'w Workspace<'_>,
    specs: &[DeclaredSpec<'s>],
    words: &PlanWords<'w, 'n, HeldSpecs<'s>>,
    visitor: &V,
) -> Result<V::Output, Fault>
    requires { map declared_text specs.now ≡ declared_specs (workspace_text workspace.now).packages }
    ensures output { IfOk result (λ output. AfterPlan (inputs_text arguments.now files.now) (workspace_text workspace.now) (words_text holds_on words.now) (λ p. V.gives visitor.now p output)) }
    ensures fault { IfErr result (λ fault. Says fault (IsPlanRefusal (inputs_text arguments.now files.now) (workspace_text workspace.now) (words_text holds_on words.now) (V.refuses visitor.now))) }
{
    match plan(alloc, workspace, words) {
        Ok(plan) => {
            let planned = Planned {
                arguments,
                files,
                workspace,
                specs,
                words,
                plan: &plan,
            };
            let output = visitor.visit(alloc, &planned);
            drop(plan);
            output
        }
        Err(fault) => {
            if is_memory(&fault) {
                return Err(Fault::Memory);
            }
            Err(plan_refused(alloc, workspace, fault))
        }
    }
}

/// Returns the output of `visitor` for the plan of `workspace`.
pub(crate) fn workspace_output<'w, V: PlanVisitor>(
    alloc: Global,
    arguments: &'w CommandArguments<'_>,
    files: &PlanFiles<'_>,
    basis: &Basis,
    workspace: &'w Workspace<'_>,
    visitor: &V,
) -> Result<V::Output, Fault>
    ensures output { IfOk result (λ output. AfterPlatforms (inputs_text arguments.now files.now) (basis_text basis.now) (workspace_text workspace.now) (λ p. V.gives visitor.now p output)) }
    ensures fault { IfErr result (λ fault. Says fault (IsPlatformRefusal (inputs_text arguments.now files.now) (basis_text basis.now) (workspace_text workspace.now) (V.refuses visitor.now))) }
{
    let specs = declared_specs(alloc, workspace)?;
    let host = held_on(alloc, workspace, &specs, &basis.host)?;
    let targets = held_on_each(alloc, workspace, &specs, &basis.targets)?;
    let words = words_by(arguments, basis.version, &host, &targets);
    planned_output(alloc, arguments, files, workspace, &specs, &words, visitor)
}
