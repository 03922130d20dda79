//! Calls that select features of the workspace by a filter in four forms, alone or joined with a list.
ghost use Rattle.feature_graph.specs.Values.{Graph};
ghost use Rattle.feature_labels.specs.Names.{LabelName};
ghost use Rattle.guppy_packages.specs.Rows.{Text};

use crate::shared::{Failure, Out, all_of, cut};
use crate::surface::queries::tell;
use guppy_features::{
    Error, FeatureFilter, FeatureFilterFn, FeatureFilterObject, FeatureGraph, FeatureId,
    FeatureIdFilter, FeatureQuery, NamedFeatureFilter, StandardFeatures, feature_id_filter,
    named_feature_filter,
};
use std::alloc::Global;
use std::cell::Cell;
use std::rc::Rc;

/// The features that a filter accepts.
#[derive(Clone, Copy)]
enum Choice {
    /// No feature.
    Nothing,
    /// The features of the first, third and every other odd question.
    Odd,
    /// Package bases.
    Bases,
    /// Features that are on by default.
    Defaults,
    /// Every feature.
    All,
    /// The features that a standard filter accepts.
    Standard(StandardFeatures),
}

impl Choice {
    /// Returns the choice that `word` names; `Nothing` for any other word.
    fn of(word: &str) -> Self {
        match word {
            "odd" => Choice::Odd,
            "bases" => Choice::Bases,
            "defaults" => Choice::Defaults,
            "all" => Choice::All,
            _ => Choice::Nothing,
        }
    }

    /// Returns the choice of the standard filter that `word` names: default, all, or else none.
    fn standard(word: &str) -> Self {
        Choice::Standard(match word {
            "default" => StandardFeatures::Default,
            "all" => StandardFeatures::All,
            _ => StandardFeatures::None,
        })
    }

    /// Returns whether `id` is accepted as question `number`, counted from 1.
    fn accepts(self, number: usize, graph: &FeatureGraph<'_>, id: FeatureId<'_>) -> bool {
        match self {
            Choice::Nothing => false,
            Choice::Odd => number % 2 == 1,
            Choice::Bases => id.is_base(),
            Choice::Defaults => matches!(graph.is_default_feature(id), Ok(true)),
            Choice::All => true,
            Choice::Standard(mut standard) => graph.contains(id) && standard.accept(graph, id),
        }
    }
}

/// Returns whether `choice` accepts `id`, and adds the question to `asked`.
fn answer(
    choice: Choice,
    asked: &Cell<usize>,
    graph: &FeatureGraph<'_>,
    id: FeatureId<'_>,
) -> bool {
    let number = asked.get().saturating_add(1);
    asked.set(number);
    choice.accepts(number, graph, id)
}

/// A filter that accepts by `choice` and counts its questions in `asked`.
#[derive(Clone, Copy)]
struct Chooser<'c> {
    choice: Choice,
    asked: &'c Cell<usize>,
}

impl<'g> FeatureFilter<'g> for Chooser<'_> {
    ghost can_accept = { λ _ _ _. Unit {0} };

    ghost accept_gives = { λ _ _ _ _ _. Unit {0} };

    fn accept(&mut self, graph: &FeatureGraph<'g>, feature_id: FeatureId<'g>) -> bool {
        answer(self.choice, self.asked, graph, feature_id)
    }
}

/// A `Chooser` that shares its counter, for use in a box.
#[derive(Drop)]
struct BoxedChooser {
    choice: Choice,
    asked: Rc<Cell<usize>>,
}

impl FeatureFilterObject for BoxedChooser {
    ghost can_accept_any = { λ _ _ _. Unit {0} };

    ghost accept_any_gives = { λ _ _ _ _ _. Unit {0} };

    fn accept_any(&mut self, graph: &FeatureGraph<'_>, feature_id: FeatureId<'_>) -> bool {
        answer(self.choice, &self.asked, graph, feature_id)
    }
}

/// Features that are accepted in addition to those of a filter.
#[derive(Clone, Copy)]
enum Listed<'l, 'g> {
    Nothing,
    Names(&'l [&'g str]),
    Ids(&'l [FeatureId<'g>]),
}

/// A graph whose workspace is selected from, and the features accepted in addition.
#[derive(Clone, Copy)]
struct Selection<'l, 'g> {
    alloc: Global,
    features: FeatureGraph<'g>,
    listed: Listed<'l, 'g>,
}

/// The query of the selected features, or its error.
type Selected<'g> = Result<FeatureQuery<'g>, Error<'g>>;

/// Returns the query of the workspace features that `filter` accepts, or the error of `filter`.
fn select_named<'g, B: FeatureFilter<'g> + Drop>(
    from: Selection<'_, 'g>,
    filter: Result<NamedFeatureFilter<'_, B>, Error<'g>>,
) -> Selected<'g>
    requires { (s : B) (g : Graph) (i : Text × LabelName) → B.can_accept s g i }
{
    match filter {
        Ok(mut filter) => {
            let selected = from.features.query_workspace(from.alloc, &mut filter);
            drop(filter);
            selected
        }
        Err(error) => Err(error),
    }
}

/// Returns the query of the workspace features that `filter` accepts, or the error of `filter`.
fn select_listed<'g, B: FeatureFilter<'g> + Drop>(
    from: Selection<'_, 'g>,
    filter: Result<FeatureIdFilter<'_, B>, Error<'g>>,
) -> Selected<'g>
    requires { (s : B) (g : Graph) (i : Text × LabelName) → B.can_accept s g i }
{
    match filter {
        Ok(mut filter) => {
            let selected = from.features.query_workspace(from.alloc, &mut filter);
            drop(filter);
            selected
        }
        Err(error) => Err(error),
    }
}

/// Returns the query of the workspace features that are listed in `from` or that `base` accepts.
fn select_by<'g, B: FeatureFilter<'g> + Drop>(from: Selection<'_, 'g>, mut base: B) -> Selected<'g>
    requires { (s : B) (g : Graph) (i : Text × LabelName) → B.can_accept s g i }
{
    match from.listed {
        Listed::Nothing => {
            let selected = from.features.query_workspace(from.alloc, &mut base);
            drop(base);
            selected
        }
        Listed::Names(names) => select_named(from, named_feature_filter(from.alloc, base, names)),
        Listed::Ids(ids) => select_listed(from, feature_id_filter(from.alloc, base, ids)),
    }
}

/// Selects by a boxed filter, which counts its questions in `count`.
fn boxed<'g>(from: Selection<'_, 'g>, choice: Choice, count: &Rc<Cell<usize>>) -> Selected<'g> {
    let asked = count.clone()?;
    let base: Box<dyn FeatureFilterObject> = Box::new(from.alloc, BoxedChooser { choice, asked })?;
    select_by(from, base)
}

/// Selects by a boxed filter, and copies its count to `chooser.asked`.
fn by_box<'g>(from: Selection<'_, 'g>, chooser: Chooser<'_>) -> Selected<'g> {
    let count = Rc::new(from.alloc, Cell::new(0))?;
    let selected = boxed(from, chooser.choice, &count);
    chooser.asked.set(count.get());
    selected
}

/// Selects by a closure that accepts as `chooser` does.
fn by_closure<'g>(from: Selection<'_, 'g>, chooser: Chooser<'_>) -> Selected<'g> {
    let filter = FeatureFilterFn::new(|graph, id| answer(chooser.choice, chooser.asked, graph, id));
    select_by(from, filter)
}

/// Selects by a filter of `choice` in the form `form`: `lent`, `boxed`, `closure`, or else by value. Writes the query, the
/// set it resolves to and the count of questions.
fn tell_selected(out: &Out, from: Selection<'_, '_>, form: &str, choice: Choice) {
    let asked = Cell::new(0);
    let mut chooser = Chooser {
        choice,
        asked: &asked,
    };
    let selected = match form {
        "lent" => select_by(from, &mut chooser),
        "boxed" => by_box(from, chooser),
        "closure" => by_closure(from, chooser),
        _ => select_by(from, chooser),
    };
    tell(out, from.alloc, selected);
    out.number("asked ", asked.get());
    out.line("");
}

/// Selects by the choice `word` in the form `form`; for the call `standard`, `word` names a standard filter.
fn select_from(out: &Out, from: Selection<'_, '_>, name: &str, form: &str, word: &str) {
    let choice = if name == "standard" {
        Choice::standard(word)
    } else {
        Choice::of(word)
    };
    tell_selected(out, from, form, choice);
}

/// Selects workspace features by a filter, and the named features listed after it. `options` are the form, the choice and
/// the names. `Memory` is the only error.
pub fn select_names<'g>(
    out: &Out,
    alloc: Global,
    features: FeatureGraph<'g>,
    name: &str,
    options: &'g str,
) -> Result<(), Failure> {
    let (form, options) = cut(options);
    let (word, listed) = cut(options);
    let names = all_of::<&'g str>(alloc, listed)?;
    let from = Selection {
        alloc,
        features,
        listed: Listed::Names(&names),
    };
    select_from(out, from, name, form, word);
    Ok(())
}

/// Selects workspace features by a filter, and those in `ids`. `options` are the form and the choice.
pub fn select_ids<'g>(
    out: &Out,
    alloc: Global,
    features: FeatureGraph<'g>,
    name: &str,
    options: &str,
    ids: &[FeatureId<'g>],
) {
    let (form, word) = cut(options);
    let from = Selection {
        alloc,
        features,
        listed: Listed::Ids(ids),
    };
    select_from(out, from, name, form, word);
}

/// Selects workspace features by a filter. `options` are the form and the choice.
pub fn select_plain(
    out: &Out,
    alloc: Global,
    features: FeatureGraph<'_>,
    name: &str,
    options: &str,
) {
    let (form, word) = cut(options);
    let from = Selection {
        alloc,
        features,
        listed: Listed::Nothing,
    };
    select_from(out, from, name, form, word);
}
