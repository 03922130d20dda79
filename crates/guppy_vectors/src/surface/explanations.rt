//! Explanations as text, and calls that resolve for a platform.
use crate::shared::{Failure, Out, Words, all_of, cut, kinds_of};
use crate::surface::checks::Start;
use crate::surface::items::tell_counted;
use crate::surface::links::tell_ends;
use crate::surface::steps::Step;
use crate::surface::told::tell_error;
use guppy_features::{DependencyKind, Error, Explained, PlatformVisitor, Reason};

/// Writes each step on a line: its feature and its reason.
pub fn tell_steps(out: &Out, steps: &[Step<'_>]) {
    for (id, reason) in steps {
        out.part("step");
        out.id(*id);
        match *reason {
            Reason::Initial => out.part(" initial"),
            Reason::Edge { from, to } => {
                out.part(" edge");
                out.id(from);
                out.id(to);
            }
            Reason::Link {
                from,
                to,
                declarations,
            } => {
                out.part(" link ");
                tell_ends(out, from, to, declarations);
            }
        }
        out.line("");
    }
}

/// Writes the set, the steps and the refused links of `explained`.
fn tell_explained(out: &Out, explained: &Explained<'_>) {
    tell_counted(out, ":", explained.set().ids_by_node());
    tell_steps(out, explained.steps());
    for (from, to, declarations) in explained.refused() {
        out.part("refused ");
        tell_ends(out, *from, *to, *declarations);
        out.line("");
    }
}

/// Writes `explained`. The call `checked` adds the checks and the steps of each feature; `shown` adds the `Debug` text.
pub fn tell_as(
    out: &Out,
    start: Start<'_, '_>,
    name: &str,
    explained: &Explained<'_>,
    words: &mut Words<'_>,
) {
    tell_explained(out, explained);
    match name {
        "checked" => {
            start.tell_checks(out, explained);
            start.tell_whys(out, explained, words);
        }
        "shown" => out.debug_line(explained),
        _ => {}
    }
}

/// Writes an explanation and the results of both checks, or the error.
fn tell_checked(out: &Out, start: Start<'_, '_>, explained: Result<Explained<'_>, Error<'_>>) {
    match explained {
        Ok(explained) => {
            tell_explained(out, &explained);
            start.tell_checks(out, &explained);
            drop(explained);
        }
        Err(error) => tell_error(out, error),
    }
}

/// Writes the features that `start` resolves to on one platform, explained.
fn platform_of(out: &Out, start: Start<'_, '_>, kinds: &[DependencyKind], specs: &[&str]) {
    match start.query() {
        Ok(query) => {
            let explained = PlatformVisitor::new(kinds, specs).resolve(start.alloc, query);
            tell_checked(out, start, explained);
        }
        Err(error) => tell_error(out, error),
    }
}

/// Writes the features that `start` resolves to on one platform, explained. `options` are kinds separated by commas, then
/// the specs that hold there. `Memory` is the only error.
pub fn platform(out: &Out, start: Start<'_, '_>, options: &str) -> Result<(), Failure> {
    let (kinds, specs) = cut(options);
    let kinds = kinds_of(start.alloc, kinds)?;
    let specs = all_of::<&str>(start.alloc, specs)?;
    platform_of(out, start, &kinds, &specs);
    Ok(())
}
