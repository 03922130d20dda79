//! Calls that resolve a query with a visitor in one of four forms, with or without an explanation.
ghost use Rattle.feature_graph.specs.LinkValues.{Link};
ghost use Rattle.feature_graph.specs.Values.{Query};

use crate::shared::{Out, Words, cut};
use crate::surface::checks::Start;
use crate::surface::explanations::tell_as;
use crate::surface::items::tell_counted;
use crate::surface::recorder::{BoxedRecorder, Log, Manner, Recorder, answer};
use crate::surface::rules::Rule;
use crate::surface::told::{tell_error, tell_members, tell_set};
use guppy_features::{
    Error, Explained, FeatureLinkObject, FeatureLinkVisitor, FeatureQuery, FeatureSet,
};
use std::alloc::Global;
use std::cell::Cell;
use std::rc::Rc;

/// The result of a query: a set, or an explained one.
#[derive(Drop)]
enum Found<'g> {
    Set(FeatureSet<'g>),
    Explained(Explained<'g>),
}

/// The result of a query, or its error.
type Resolved<'g> = Result<Found<'g>, Error<'g>>;

/// Resolves `query` with `visitor`, with an explanation if `is_explained`; returns the error of the query.
fn resolve<'g, V: FeatureLinkVisitor<'g>>(
    alloc: Global,
    query: FeatureQuery<'g>,
    is_explained: bool,
    visitor: &mut V,
) -> Resolved<'g>
    requires { (s : V) (q : Query) (l : Link) → V.can_visit s q l }
{
    if is_explained {
        match query.resolve_explained(alloc, visitor) {
            Ok(explained) => Ok(Found::Explained(explained)),
            Err(error) => Err(error),
        }
    } else {
        match query.resolve_with(alloc, visitor) {
            Ok(set) => Ok(Found::Set(set)),
            Err(error) => Err(error),
        }
    }
}

/// Resolves `query` with a closure, without an explanation.
fn by_closure<'g>(
    alloc: Global,
    query: FeatureQuery<'g>,
    manner: Manner,
    log: &Log,
) -> Resolved<'g> {
    match query.resolve_with_fn(alloc, &mut |cx, link| answer(manner, log, cx, link)) {
        Ok(set) => Ok(Found::Set(set)),
        Err(error) => Err(error),
    }
}

/// Resolves `query` with a boxed visitor that writes to `shared`.
fn boxed<'g>(
    alloc: Global,
    query: FeatureQuery<'g>,
    manner: Manner,
    shared: &Rc<Log>,
) -> Resolved<'g> {
    let log = shared.clone()?;
    let mut visitor: Box<dyn FeatureLinkObject> = Box::new(alloc, BoxedRecorder { manner, log })?;
    let resolved = resolve(alloc, query, manner.is_brief, &mut visitor);
    drop(visitor);
    resolved
}

/// Resolves `query` with a boxed visitor, and carries its count and failed writes over to `log`.
fn by_box<'g>(alloc: Global, query: FeatureQuery<'g>, manner: Manner, log: &Log) -> Resolved<'g> {
    let shared = Rc::new(
        alloc,
        Log {
            out: log.out.another(),
            calls: Cell::new(log.calls.get()),
        },
    )?;
    let resolved = boxed(alloc, query, manner, &shared);
    log.calls.set(shared.calls.get());
    log.out.join(&shared.out);
    resolved
}

/// Resolves `query` with a visitor in the form `form`: `lent`, `boxed`, `closure`, or else by value.
fn in_form<'g>(
    alloc: Global,
    query: FeatureQuery<'g>,
    form: &str,
    manner: Manner,
    log: &Log,
) -> Resolved<'g> {
    let mut recorder = Recorder { manner, log };
    match form {
        "lent" => resolve(alloc, query, manner.is_brief, &mut &mut recorder),
        "boxed" => by_box(alloc, query, manner, log),
        "closure" => by_closure(alloc, query, manner, log),
        _ => resolve(alloc, query, manner.is_brief, &mut recorder),
    }
}

/// Writes the set or explanation `found`, or the error.
fn tell_found(
    out: &Out,
    start: Start<'_, '_>,
    name: &str,
    found: Resolved<'_>,
    words: &mut Words<'_>,
) {
    match found {
        Ok(Found::Set(set)) => {
            tell_members(out, &set);
            drop(set);
        }
        Ok(Found::Explained(explained)) => {
            tell_as(out, start, name, &explained, words);
            drop(explained);
        }
        Err(error) => tell_error(out, error),
    }
}

/// Writes `set` and, if `plain` is present, whether both are equal.
fn tell_equal<'g>(out: &Out, plain: Option<FeatureSet<'g>>, set: FeatureSet<'g>) {
    tell_counted(out, ":", set.ids_by_node());
    if let Some(plain) = plain {
        out.answer_line("same ", set == plain);
    }
}

/// Writes the set of `found` and, if `plain` is present, whether both are equal; or the error.
fn tell_same<'g>(out: &Out, plain: Option<FeatureSet<'g>>, found: Resolved<'g>) {
    match found {
        Ok(Found::Explained(explained)) => tell_equal(out, plain, explained.into_set()),
        Ok(Found::Set(set)) => tell_equal(out, plain, set),
        Err(error) => tell_error(out, error),
    }
}

/// Writes `set`, or the error.
fn tell_plain(out: &Out, set: &Result<FeatureSet<'_>, Error<'_>>) {
    match set {
        Ok(set) => tell_counted(out, ":", set.ids_by_node()),
        Err(error) => tell_error(out, *error),
    }
}

/// Resolves two equal queries with equal visitors: the first without an explanation, the second by `in_form`. Writes both
/// sets and whether they are equal.
fn same<'g>(
    alloc: Global,
    queries: (FeatureQuery<'g>, FeatureQuery<'g>),
    form: &str,
    manner: Manner,
    log: &Log,
) {
    let (copy, query) = queries;
    let first = Log {
        out: log.out.another(),
        calls: Cell::new(0),
    };
    let plain = copy.resolve_with(
        alloc,
        &mut Recorder {
            manner,
            log: &first,
        },
    );
    tell_plain(&log.out, &plain);
    tell_same(
        &log.out,
        plain.ok(),
        in_form(alloc, query, form, manner, log),
    );
    log.calls
        .set(log.calls.get().saturating_add(first.calls.get()));
    log.out.join(&first.out);
}

/// Resolves `queries` in order with `visitor`, which counts its questions in `calls`. Writes both sets, with the count between
/// them.
fn resolve_each<'g, V: FeatureLinkVisitor<'g>>(
    out: &Out,
    alloc: Global,
    queries: (FeatureQuery<'g>, FeatureQuery<'g>),
    calls: &Cell<usize>,
    visitor: &mut V,
)
    requires { (s : V) (q : Query) (l : Link) → V.can_visit s q l }
{
    let (first, second) = queries;
    tell_set(out, "", first.resolve_with(alloc, visitor));
    out.number("asked ", calls.get());
    out.line("");
    tell_set(out, "", second.resolve_with(alloc, visitor));
}

/// Resolves `queries` in order with one boxed visitor that writes to `shared`; `Memory` if there is no box.
fn lend_box<'g>(
    alloc: Global,
    queries: (FeatureQuery<'g>, FeatureQuery<'g>),
    manner: Manner,
    shared: &Rc<Log>,
) -> Result<(), Error<'g>> {
    let log = shared.clone()?;
    let mut visitor: Box<dyn FeatureLinkObject> = Box::new(alloc, BoxedRecorder { manner, log })?;
    resolve_each(&shared.out, alloc, queries, &shared.calls, &mut visitor);
    Ok(())
}

/// Resolves `queries` in order with one boxed visitor, and carries its count and failed writes over to `log`.
fn lend<'g>(
    alloc: Global,
    queries: (FeatureQuery<'g>, FeatureQuery<'g>),
    manner: Manner,
    log: &Log,
) -> Result<(), Error<'g>> {
    let shared = Rc::new(
        alloc,
        Log {
            out: log.out.another(),
            calls: Cell::new(0),
        },
    )?;
    let lent = lend_box(alloc, queries, manner, &shared);
    log.calls.set(shared.calls.get());
    log.out.join(&shared.out);
    lent
}

/// Resolves `query` with the visitor of the call `name`, and writes the result.
fn once(
    start: Start<'_, '_>,
    name: &str,
    form: &str,
    manner: Manner,
    log: &Log,
    words: &mut Words<'_>,
    query: FeatureQuery<'_>,
) {
    let found = in_form(start.alloc, query, form, manner, log);
    tell_found(&log.out, start, name, found, words);
}

/// Resolves both `queries`, which are equal, as the call `name` says: `twice`, `same` or `lend`.
fn both<'g>(
    start: Start<'_, 'g>,
    name: &str,
    form: &str,
    manner: Manner,
    log: &Log,
    words: &mut Words<'_>,
    queries: (FeatureQuery<'g>, FeatureQuery<'g>),
) {
    match name {
        "same" => same(start.alloc, queries, form, manner, log),
        "lend" => {
            if let Err(error) = lend(start.alloc, queries, manner, log) {
                tell_error(&log.out, error);
            }
        }
        _ => {
            let (first, second) = queries;
            once(start, name, form, manner, log, words, first);
            once(start, name, form, manner, log, words, second);
        }
    }
}

/// Resolves `query` with the visitor of the call `name` and writes the result. `twice`, `same` and `lend` resolve a copy too;
/// `lend` lends one boxed visitor for both.
fn run(
    start: Start<'_, '_>,
    name: &str,
    form: &str,
    manner: Manner,
    log: &Log,
    words: &mut Words<'_>,
    query: FeatureQuery<'_>,
) {
    if !matches!(name, "twice" | "same" | "lend") {
        return once(start, name, form, manner, log, words, query);
    }
    match query.try_clone(start.alloc) {
        Ok(second) => both(start, name, form, manner, log, words, (query, second)),
        Err(error) => tell_error(&log.out, error),
    }
}

/// Makes the call `name` from `start` with a visitor of `form` and `rule`, then writes how often the visitor was asked.
/// Without an explanation, the count isn't written if the query fails.
pub fn visit(
    out: &Out,
    start: Start<'_, '_>,
    name: &str,
    form: &str,
    rule: &str,
    words: &mut Words<'_>,
) {
    let log = Log {
        out: out.another(),
        calls: Cell::new(0),
    };
    let manner = Manner {
        rule: Rule::of(start.alloc, rule),
        is_brief: !matches!(name, "visit" | "twice" | "lend"),
    };
    let query = start.query();
    let is_known = query.is_ok();
    match query {
        Ok(query) => run(start, name, form, manner, &log, words, query),
        Err(error) => tell_error(out, error),
    }
    if is_known || manner.is_brief {
        out.number("asked ", log.calls.get());
        out.line("");
    }
    out.join(&log.out);
}
