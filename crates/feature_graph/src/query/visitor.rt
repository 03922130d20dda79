//! Visitors, which decide the links that a query follows.
ghost use Rattle.std.specs.Prelude.{◌≡◌, Bool};
ghost use Rattle.feature_graph.specs.Boxed.{EndsAs};
ghost use Rattle.feature_graph.specs.ByClosure.{closure_can, closure_gives};
ghost use Rattle.feature_graph.specs.Lent.{lent_visit};
ghost use Rattle.feature_graph.specs.LinkValues.{Link};
ghost use Rattle.feature_graph.specs.LinkViews.{link_of};
ghost use Rattle.feature_graph.specs.Values.{Query};

use crate::link::ConditionalLink;
use crate::query::context::FeatureLinkContext;

/// A visitor, which decides the links that a query follows.
///
/// A walk shows a visitor each link at most once. A weak edge of a dependency with required and optional declarations
/// has two links with the same ends, one for each half. Their `declarations` differ, and the edge is followed if one of
/// the two is accepted.
pub trait FeatureLinkVisitor<'g> {
    /// The visitor may be called for the link, in the context of the query.
    ghost can_visit: { Self → Query → Link → Type 0 };

    /// The visitor may return this result for the link, in the context of the query, and be in this state after it.
    ghost visit_gives: { Self → Query → Link → Bool → Self → Type 0 };

    /// Returns true if the link is followed. The link is one of the query's graph.
    fn visit_link(&mut self, cx: &FeatureLinkContext<'g>, link: ConditionalLink<'g>) -> bool
        requires of_graph { (link_of link).graph ≡ cx.now.graph }
        requires allowed { can_visit self.old cx.now (link_of link) }
        ensures { visit_gives self.old cx.now (link_of link.entry) result self.new };
}

impl<'g, T: FeatureLinkVisitor<'g>> FeatureLinkVisitor<'g> for &mut T {
    ghost can_visit = { λ s q l. T.can_visit s.now q l };

    ghost visit_gives = { lent_visit T.visit_gives };

    fn visit_link(&mut self, cx: &FeatureLinkContext<'g>, link: ConditionalLink<'g>) -> bool {
        (**self).visit_link(cx, link)
    }
}

/// A visitor that can be boxed. It owns its data.
pub trait FeatureLinkObject: Drop {
    /// The visitor may be called for the link, in the context of the query.
    ghost can_visit_any: { Self → Query → Link → Type 0 };

    /// The visitor may return this result for the link, in the context of the query, and be in this state after it.
    ghost visit_any_gives: { Self → Query → Link → Bool → Self → Type 0 };

    /// Returns true if the link is followed. The link is one of the query's graph.
    fn visit_any(&mut self, cx: &FeatureLinkContext<'_>, link: ConditionalLink<'_>) -> bool
        requires of_graph { (link_of link).graph ≡ cx.now.graph }
        requires allowed { can_visit_any self.old cx.now (link_of link) }
        ensures { visit_any_gives self.old cx.now (link_of link.entry) result self.new };
}

impl<'g> FeatureLinkVisitor<'g> for Box<dyn FeatureLinkObject> {
    ghost can_visit = { λ s q l. (FeatureLinkObject-box s).can_visit_any s.value q l };

    ghost visit_gives = { λ s q l answer t. EndsAs s t (λ y. (FeatureLinkObject-box s).visit_any_gives s.value q l answer y) };

    fn visit_link(&mut self, cx: &FeatureLinkContext<'g>, link: ConditionalLink<'g>) -> bool {
        (**self).visit_any(cx, link)
    }
}

/// A visitor that calls a closure.
#[derive(Drop)]
pub(crate) struct LinkVisitorFn<'f, F> {
    pub(crate) f: &'f mut F,
}

impl<'f, 'g, F: FnMut(&FeatureLinkContext<'g>, ConditionalLink<'g>) -> bool> FeatureLinkVisitor<'g>
    for LinkVisitorFn<'f, F> {
    ghost can_visit = { λ s q l. closure_can F.pre s.f.now q l };

    ghost visit_gives = { λ s q l answer t. (t.f.ghost_name ≡ s.f.ghost_name) × closure_gives F.step s.f.now q l answer t.f.now };

    fn visit_link(&mut self, cx: &FeatureLinkContext<'g>, link: ConditionalLink<'g>) -> bool {
        (self.f)(cx, link)
    }
}
