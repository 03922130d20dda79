//! Visitors that log the links they are shown.
use crate::shared::Out;
use crate::surface::links::{tell_ends, tell_rest};
use crate::surface::rules::Rule;
use guppy_features::{ConditionalLink, FeatureLinkContext, FeatureLinkObject, FeatureLinkVisitor};
use std::alloc::Global;
use std::cell::Cell;
use std::rc::Rc;

/// A visitor's rule, and the length of its log lines.
#[derive(Clone, Copy)]
pub struct Manner {
    pub rule: Rule,
    /// Whether only the ends and declarations of a link are logged.
    pub is_brief: bool,
}

/// The output of a visitor, and the count of its calls.
#[derive(Drop)]
pub struct Log {
    pub out: Out,
    pub calls: Cell<usize>,
}

/// A visitor that logs each link to `log` and accepts it by the rule of `manner`.
#[derive(Clone, Copy)]
pub struct Recorder<'l> {
    pub manner: Manner,
    pub log: &'l Log,
}

/// A `Recorder` that shares its log, for use in a box.
#[derive(Drop)]
pub struct BoxedRecorder {
    pub manner: Manner,
    pub log: Rc<Log>,
}

/// Writes the direction of a copy of `cx` and whether `link` starts from an initial feature by it, or that an allocation failed.
fn tell_copy(out: &Out, alloc: Global, cx: &FeatureLinkContext<'_>, link: ConditionalLink<'_>) {
    match cx.try_clone(alloc) {
        Ok(copy) => {
            out.part(" copied ");
            out.debug(copy.direction());
            out.answer(" ", copy.starts_from_initial(&link));
        }
        Err(_) => out.part(" out of memory"),
    }
}

/// Writes `initial` if `link` starts from an initial feature, and the texts that `rule` adds.
fn tell_more(out: &Out, rule: Rule, cx: &FeatureLinkContext<'_>, link: ConditionalLink<'_>) {
    out.part_if(cx.starts_from_initial(&link), " initial");
    match rule {
        Rule::Copies(alloc) => tell_copy(out, alloc, cx, link),
        Rule::Debug => {
            out.part(" ");
            out.debug(cx);
            out.part(" ");
            out.debug(link);
        }
        _ => {}
    }
}

/// Logs `link` by `manner`, counts the call, and returns whether the rule accepts the link.
pub fn answer(
    manner: Manner,
    log: &Log,
    cx: &FeatureLinkContext<'_>,
    link: ConditionalLink<'_>,
) -> bool {
    let calls = log.calls.get();
    let accepted = manner.rule.accepts(calls, link);
    log.calls.set(calls.saturating_add(1));
    let (from, to) = link.endpoints();
    log.out.part("- ");
    tell_ends(
        &log.out,
        from.feature_id(),
        to.feature_id(),
        link.declarations(),
    );
    if !manner.is_brief {
        tell_rest(&log.out, link);
        tell_more(&log.out, manner.rule, cx, link);
    }
    log.out.line(if accepted { " yes" } else { " no" });
    accepted
}

impl<'g> FeatureLinkVisitor<'g> for Recorder<'_> {
    ghost can_visit = { λ _ _ _. Unit {0} };

    ghost visit_gives = { λ _ _ _ _ _. Unit {0} };

    fn visit_link(&mut self, cx: &FeatureLinkContext<'g>, link: ConditionalLink<'g>) -> bool {
        answer(self.manner, self.log, cx, link)
    }
}

impl FeatureLinkObject for BoxedRecorder {
    ghost can_visit_any = { λ _ _ _. Unit {0} };

    ghost visit_any_gives = { λ _ _ _ _ _. Unit {0} };

    fn visit_any(&mut self, cx: &FeatureLinkContext<'_>, link: ConditionalLink<'_>) -> bool {
        answer(self.manner, &self.log, cx, link)
    }
}
