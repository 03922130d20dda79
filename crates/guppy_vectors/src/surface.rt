//! Calls of `guppy_features` on a feature graph.
mod checks;
mod explanations;
mod filters;
mod in_set;
mod items;
mod iterators;
mod links;
mod look_ups;
mod pairs;
mod parts;
mod queries;
mod recorder;
mod rules;
mod steps;
mod texts;
mod told;
mod visits;

use crate::shared::{Failure, Given, Out, Words, all_of, cut, direction_of, ids_of};
use crate::surface::checks::{Start, check, check_exact};
use crate::surface::explanations::platform;
use crate::surface::filters::{select_ids, select_names, select_plain};
use crate::surface::in_set::in_set;
pub use crate::surface::items::tell_counted;
use crate::surface::look_ups::{figures, look_ups, verify, warnings};
use crate::surface::pairs::{cycles, first_cycle, pair, tied};
use crate::surface::queries::{has, of_query};
use crate::surface::texts::texts;
use crate::surface::told::tell_set;
use crate::surface::visits::visit;
use guppy_features::{FeatureGraph, FeatureId};
use std::alloc::Global;

/// Makes the call `name`, which takes no features. `Memory` is the only error.
fn plain_call(
    out: &Out,
    alloc: Global,
    features: FeatureGraph<'_>,
    name: &str,
    options: &str,
) -> Result<(), Failure> {
    match name {
        "figures" => figures(out, features),
        "warnings" => warnings(out, features),
        "verify" => verify(out, features),
        "all" => tell_set(out, "", features.resolve_all(alloc)),
        "none" => tell_set(out, "", features.resolve_none(alloc)),
        "in-all" => return in_set(out, alloc, features.resolve_all(alloc), options),
        "cycles" => cycles(out, alloc, features),
        "first-cycle" => first_cycle(out, alloc, features),
        "select-names" => return select_names(out, alloc, features, name, options),
        "select" | "standard" => select_plain(out, alloc, features, name, options),
        _ => out.line("no such call"),
    }
    Ok(())
}

/// Makes the call `name` on the features `ids`. `Memory` is the only error.
fn call(
    out: &Out,
    alloc: Global,
    features: FeatureGraph<'_>,
    name: &str,
    options: &str,
    ids: &[FeatureId<'_>],
) -> Result<(), Failure> {
    match name {
        "set" => tell_set(out, "", features.resolve_ids(alloc, ids)),
        "has" => has(out, alloc, features, ids),
        "texts" => texts(out, alloc, features, ids),
        "pair" => pair(out, alloc, features, options, ids),
        "tied" => tied(out, alloc, features, ids),
        "in-set" => return in_set(out, alloc, features.resolve_ids(alloc, ids), options),
        "select-ids" => select_ids(out, alloc, features, name, options, ids),
        "forward" | "reverse" | "directed" | "packages" | "of-package" | "copy" | "items" => {
            of_query(out, alloc, features, name, options, ids);
        }
        _ => look_ups(out, alloc, features, name, ids),
    }
    Ok(())
}

/// Makes a call that checks or writes an explanation from `start`. `options` are the words after the direction, and `words`
/// those after the initial features. `Memory` is the only error.
fn explained_call(
    out: &Out,
    start: Start<'_, '_>,
    name: &str,
    options: &str,
    words: &mut Words<'_>,
) -> Result<(), Failure> {
    match name {
        "check" => return check(out, start, words),
        "check-exact" => return check_exact(out, start, words),
        "platform" => return platform(out, start, options),
        _ => {
            let (form, rule) = cut(options);
            visit(out, start, name, form, rule, words);
        }
    }
    Ok(())
}

/// Makes the call of `words`, a name and its options. The features are the ids of `rest` up to the first `;`; the call reads
/// the words after it. `Memory` is the only error.
fn call_of(
    out: &Out,
    alloc: Global,
    features: FeatureGraph<'_>,
    words: &str,
    rest: &mut Words<'_>,
) -> Result<(), Failure> {
    let (name, options) = cut(words);
    let ids = ids_of(alloc, rest)?;
    match name {
        "visit" | "twice" | "lend" => {
            let (form, others) = cut(options);
            let (direction, rule) = cut(others);
            let start = Start {
                alloc,
                features,
                direction: direction_of(direction),
                initials: &ids,
            };
            visit(out, start, name, form, rule, rest);
            Ok(())
        }
        "check" | "check-exact" | "platform" | "explain" | "checked" | "shown" | "same" => {
            let (direction, others) = cut(options);
            let start = Start {
                alloc,
                features,
                direction: direction_of(direction),
                initials: &ids,
            };
            explained_call(out, start, name, others, rest)
        }
        _ => call(out, alloc, features, name, options, &ids),
    }
}

/// Makes the call of `line`. Features and further words follow the first `: `. `Memory` is the only error.
pub fn make_call(
    out: &Out,
    alloc: Global,
    features: FeatureGraph<'_>,
    line: &str,
) -> Result<(), Failure> {
    match line.split_once(": ") {
        Some((words, rest)) => {
            let given = all_of::<Given<'_>>(alloc, rest)?;
            call_of(out, alloc, features, words, &mut given.iter())
        }
        None => {
            let (name, options) = cut(line);
            plain_call(out, alloc, features, name, options)
        }
    }
}
