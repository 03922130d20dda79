//! One visitor in each form in which it can be handed over: itself, lent, in a box among others, as a closure.
ghost use Rattle.std.specs.Prelude.{◌≡◌, ◌↔◌, ◌+◌, ◌-◌, ◌^◌, ℕ, min, IsTrue, IfOk};
ghost use Rattle.guppy_features.specs.digraphs.Bits.{has};
ghost use Rattle.guppy_features.specs.walk_engine.Walks.{Least};
ghost use Rattle.guppy_features.specs.feature_graph.LinkViews.{link_of};
ghost use Rattle.guppy_features.specs.feature_graph.Visits.{query_content};
ghost use Rattle.uses.specs.Answers.{CountsRun, is_shipped, by_links};

use crate::failure::Failure;
use crate::out::Out;
use guppy_features::{
    ConditionalLink, DependencyKind, Error, FeatureGraph, FeatureId, FeatureLabel,
    FeatureLinkContext, FeatureLinkObject, FeatureLinkVisitor, FeatureQuery, FeatureSet, PackageId,
    laws,
};
use std::alloc::Global;

/// Follows the links that aren't only for development, and counts the links that it is shown.
#[derive(Clone, Copy)]
pub struct Shipped {
    pub calls: u64,
}

impl Shipped {
    /// Counts `link`, and returns true if it is followed.
    fn answer(&mut self, link: ConditionalLink<'_>) -> bool
        ensures answer { result ≡ is_shipped (link_of link.entry) }
        ensures count { self.new.calls ≡ min (self.old.calls + 1) (2 ^ 64 - 1) }
    {
        self.calls = self.calls.saturating_add(1);
        !link.dev_only()
    }
}

impl<'g> FeatureLinkVisitor<'g> for Shipped {
    ghost can_visit = { λ _ _ _. Unit {0} };

    // its answer is a test of the link alone, and it counts one more
    ghost visit_gives = { λ s _ l answer t. (answer ≡ is_shipped l) × (t.calls ≡ min (s.calls + 1) (2 ^ 64 - 1)) };

    fn visit_link(&mut self, _: &FeatureLinkContext<'g>, link: ConditionalLink<'g>) -> bool {
        self.answer(link)
    }
}

// what goes into a box implements this trait
impl FeatureLinkObject for Shipped {
    ghost can_visit_any = { λ _ _ _. Unit {0} };

    ghost visit_any_gives = { λ s _ l answer t. (answer ≡ is_shipped l) × (t.calls ≡ min (s.calls + 1) (2 ^ 64 - 1)) };

    fn visit_any(&mut self, _: &FeatureLinkContext<'_>, link: ConditionalLink<'_>) -> bool {
        self.answer(link)
    }
}

/// Follows the links that are for one kind of dependency on some platform.
#[derive(Clone, Copy)]
pub struct OfKind(DependencyKind);

impl FeatureLinkObject for OfKind {
    ghost can_visit_any = { λ _ _ _. Unit {0} };

    ghost visit_any_gives = { λ _ _ _ _ _. Unit {0} };

    fn visit_any(&mut self, _: &FeatureLinkContext<'_>, link: ConditionalLink<'_>) -> bool {
        link.status_for_kind(self.0).is_present()
    }
}

/// Returns the features that `query` turns on by links that aren't only for development. The visitor's count doesn't change
/// the set; it grows by one for each link that is shown.
pub fn by_reference<'g>(
    alloc: Global,
    query: FeatureQuery<'g>,
    visitor: &mut Shipped,
) -> Result<FeatureSet<'g>, Error<'g>>
    ensures least { IfOk result (λ set. (n : ℕ) → IsTrue (has set.members n)
        ↔ Least (query_content query.entry) (has query.entry.initials) (by_links is_shipped query.entry.graph) n) }
    ensures counted { IfOk result (λ _. CountsRun is_shipped query.entry visitor.old.calls visitor.new.calls) }
{
    laws::visitor_agrees_by_answer::<Shipped>();
    query.resolve_with(alloc, visitor)
}

/// Returns the same set by a visitor that is lent once more: a `&mut` of a visitor is a visitor too.
pub fn by_loan<'g>(
    alloc: Global,
    query: FeatureQuery<'g>,
    visitor: &mut Shipped,
) -> Result<FeatureSet<'g>, Error<'g>>
    ensures least { IfOk result (λ set. (n : ℕ) → IsTrue (has set.members n)
        ↔ Least (query_content query.entry) (has query.entry.initials) (by_links is_shipped query.entry.graph) n) }
    ensures counted { IfOk result (λ _. CountsRun is_shipped query.entry visitor.old.calls visitor.new.calls) }
{
    let mut lent = visitor;
    resolve_lent(alloc, query, &mut lent)
}

/// Resolves `query` with `lent`, which stays the same reference.
fn resolve_lent<'g>(
    alloc: Global,
    query: FeatureQuery<'g>,
    lent: &mut &mut Shipped,
) -> Result<FeatureSet<'g>, Error<'g>>
    ensures same_reference { lent.new.ghost_name ≡ lent.old.ghost_name }
    ensures least { IfOk result (λ set. (n : ℕ) → IsTrue (has set.members n)
        ↔ Least (query_content query.entry) (has query.entry.initials) (by_links is_shipped query.entry.graph) n) }
    ensures counted { IfOk result (λ _. CountsRun is_shipped query.entry lent.old.now.calls lent.new.now.calls) }
{
    laws::visitor_agrees_by_answer::<&mut Shipped>();
    laws::lent_visitor_stays::<Shipped>();
    query.resolve_with(alloc, lent)
}

/// Returns the same set by a closure, which is a visitor without a name.
pub fn by_closure<'g>(alloc: Global, query: FeatureQuery<'g>) -> Result<FeatureSet<'g>, Error<'g>> {
    query.resolve_with_fn(alloc, &mut |_, link| !link.dev_only())
}

/// Prints the features that a query turns on by each of several boxed visitors.
fn show_boxed(out: &Out, alloc: Global, query: &FeatureQuery<'_>) -> Result<(), Failure> {
    let shipped: Box<dyn FeatureLinkObject> = Box::new(alloc, Shipped { calls: 0 })?;
    let for_tests: Box<dyn FeatureLinkObject> = Box::new(
        alloc,
        OfKind(DependencyKind::Development),
    )?;
    let mut visitors = [shipped, for_tests];
    for visitor in visitors.iter_mut() {
        let again = query.try_clone(alloc)?;
        out.set("by a box", again.resolve_with(alloc, visitor))?;
    }
    Ok(())
}

/// Prints the features that a query turns on by a visitor that is lent, after `text`, and the visitor's count.
fn show_lent(
    out: &Out,
    alloc: Global,
    text: &str,
    query: &FeatureQuery<'_>,
    visitor: &mut Shipped,
) -> Result<(), Failure> {
    let again = query.try_clone(alloc)?;
    out.set(text, by_loan(alloc, again, visitor))?;
    out.part("asked ");
    out.line(visitor.calls);
    Ok(())
}

/// Prints the features that a query turns on by one visitor in each form; the lent one is lent twice.
fn show_each(out: &Out, alloc: Global, query: &FeatureQuery<'_>) -> Result<(), Failure> {
    let mut visitor = Shipped { calls: 0 };
    show_lent(out, alloc, "lent", query, &mut visitor)?;
    show_lent(out, alloc, "lent again", query, &mut visitor)?;
    show_boxed(out, alloc, query)
}

/// Prints the features that a feature turns on by one visitor in each form.
pub fn show(out: &Out, alloc: Global, graph: FeatureGraph<'_>) -> Result<(), Failure> {
    let main = PackageId::new(alloc, "main")?;
    let id = FeatureId::named(&main, "smallvec");
    let query = graph.query_forward(alloc, &[id])?;
    show_each(out, alloc, &query)?;
    out.set("by a closure", by_closure(alloc, query))
}
