//! Edges between two features.
ghost use Rattle.std.specs.Prelude.{◌≡◌, IfOk, option_copied};
ghost use Rattle.std.specs.Option.{option_map};
ghost use Rattle.feature_links.specs.Facts.{full_link, is_dev_edge, halves_of, link_at, has_present_link};
ghost use Rattle.feature_links.specs.Values.{link_facts, half_facts, weak_facts_of, weak_number, weak_link_of, edge_facts};

use crate::link::{ConditionalLinkImpl, EnabledLink};
use std::alloc::{AllocError, Global};
use walk_engine::Half;

/// The number of a weak link. Weak edges over one package link share it.
#[derive(Clone, Copy, PartialEq, Eq, PartialOrd, Ord, Hash, Debug)]
pub struct WeakIndex(usize);

impl WeakIndex {
    /// Returns the weak link numbered `index`.
    pub fn new(index: usize) -> Self
        ensures { weak_number result ≡ index }
    {
        WeakIndex(index)
    }

    /// Returns the number.
    pub fn index(self) -> usize
        ensures { result ≡ weak_number self }
    {
        self.0
    }
}

/// The link of a weak edge, and its two halves: over the required and over the optional declarations of its package link.
#[derive(Debug, Drop)]
pub struct WeakSlashImpl {
    link: ConditionalLinkImpl,
    required: EnabledLink,
    optional: EnabledLink,
    index: WeakIndex,
}

impl WeakSlashImpl {
    /// Returns the weak edge with the link `link`, these halves and the weak link `index`.
    pub fn new(
        link: ConditionalLinkImpl,
        required: EnabledLink,
        optional: EnabledLink,
        index: WeakIndex,
    ) -> Self
        ensures link { weak_link_of result ≡ link_facts link }
        ensures required { (weak_facts_of result).required ≡ half_facts required }
        ensures optional { (weak_facts_of result).optional ≡ half_facts optional }
        ensures index { (weak_facts_of result).index ≡ weak_number index }
    {
        WeakSlashImpl {
            link,
            required,
            optional,
            index,
        }
    }

    /// Returns the edge's link, over all declarations of its package link.
    pub fn link(&self) -> &ConditionalLinkImpl
        ensures { link_facts result.now ≡ weak_link_of self.now }
    {
        &self.link
    }

    /// Returns the half over the required declarations.
    pub fn required(&self) -> &EnabledLink
        ensures { half_facts result.now ≡ (weak_facts_of self.now).required }
    {
        &self.required
    }

    /// Returns the half over the optional declarations.
    pub fn optional(&self) -> &EnabledLink
        ensures { half_facts result.now ≡ (weak_facts_of self.now).optional }
    {
        &self.optional
    }

    /// Returns the number of the edge's weak link.
    pub fn index(&self) -> WeakIndex
        ensures { weak_number result ≡ (weak_facts_of self.now).index }
    {
        self.index
    }

    /// Returns an equal weak edge. `AllocError` is the only error.
    pub fn try_clone(&self, alloc: Global) -> Result<WeakSlashImpl, AllocError>
        ensures link { IfOk result (λ weak. weak_link_of weak ≡ weak_link_of self.now) }
        ensures halves { IfOk result (λ weak. weak_facts_of weak ≡ weak_facts_of self.now) }
    {
        let link = self.link.try_clone(alloc)?;
        let required = self.required.try_clone(alloc)?;
        let optional = self.optional.try_clone(alloc)?;
        Ok(WeakSlashImpl {
            link,
            required,
            optional,
            index: self.index,
        })
    }
}

/// An edge between two features, with its link if it is conditional.
#[derive(Debug, Drop)]
pub enum FeatureEdge {
    /// From a feature to the base of its package.
    FeatureToBase,
    /// From the base or an optional dependency of a package to a feature that declarations of a link request.
    DependenciesSection(ConditionalLinkImpl),
    /// From a named feature to another named feature of its package.
    NamedFeature,
    /// From a named feature with an item `dep:d` to the optional dependency `d`.
    NamedFeatureDepColon(ConditionalLinkImpl),
    /// From a named feature with an item `d/g`, or with an item `d?/g` over a link without optional declarations.
    NamedFeatureWithSlash(ConditionalLinkImpl),
    /// From a named feature with an item `d?/g`. The edge's optional half waits until its optional dependency is reached.
    NamedFeatureWithWeakSlash(Box<WeakSlashImpl>),
}

/// The edges to follow.
#[derive(Clone, Copy, PartialEq, Eq, Debug)]
pub enum EdgeChoice {
    /// All edges.
    All,
    /// Only edges from a feature to its base, and from a named feature to a named feature of its package.
    FeatureToBaseAndNamed,
}

impl FeatureEdge {
    /// Returns the full link of a conditional edge, or `None`.
    fn full_link(&self) -> Option<&ConditionalLinkImpl>
        ensures { option_map link_facts (option_copied result) ≡ full_link (edge_facts self.now) }
    {
        match self {
            FeatureEdge::FeatureToBase | FeatureEdge::NamedFeature => None,
            FeatureEdge::DependenciesSection(link)
            | FeatureEdge::NamedFeatureDepColon(link)
            | FeatureEdge::NamedFeatureWithSlash(link) => Some(link),
            FeatureEdge::NamedFeatureWithWeakSlash(weak) => Some(weak.link()),
        }
    }

    /// Returns the halves of a weak edge, or `None`.
    fn halves(&self) -> Option<&WeakSlashImpl>
        ensures { option_map weak_facts_of (option_copied result) ≡ halves_of (edge_facts self.now) }
    {
        match self {
            FeatureEdge::NamedFeatureWithWeakSlash(weak) => Some(weak),
            _ => None,
        }
    }

    /// Returns the link of one of the edge's offers: the full link of a conditional edge, or a half of a weak one that has a
    /// declaration.
    pub fn link(&self, half: Half) -> Option<&ConditionalLinkImpl>
        ensures { option_map link_facts (option_copied result) ≡ link_at (edge_facts self.now) half }
    {
        match half {
            Half::Full => self.full_link(),
            Half::Required => match self.halves() {
                Some(weak) => weak.required().get(),
                None => None,
            },
            Half::Optional => match self.halves() {
                Some(weak) => weak.optional().get(),
                None => None,
            },
        }
    }

    /// Returns whether the edge is conditional and its link has no declaration for normal use or for build scripts.
    pub fn is_dev_only(&self) -> bool
        ensures { result ≡ is_dev_edge (edge_facts self.now) }
    {
        match self.full_link() {
            Some(link) => link.is_dev_only(),
            None => false,
        }
    }

    /// Returns whether the edge is unconditional, or its link is present for some kind of dependency.
    pub fn has_present_link(&self) -> bool
        ensures { result ≡ has_present_link (edge_facts self.now) }
    {
        match self.full_link() {
            Some(link) => link.is_present(),
            None => true,
        }
    }

    /// Returns an equal edge. `AllocError` is the only error.
    pub fn try_clone(&self, alloc: Global) -> Result<FeatureEdge, AllocError>
        ensures { IfOk result (λ edge. edge_facts edge ≡ edge_facts self.now) }
    {
        match self {
            FeatureEdge::FeatureToBase => Ok(FeatureEdge::FeatureToBase),
            FeatureEdge::DependenciesSection(link) => {
                let link = link.try_clone(alloc)?;
                Ok(FeatureEdge::DependenciesSection(link))
            }
            FeatureEdge::NamedFeature => Ok(FeatureEdge::NamedFeature),
            FeatureEdge::NamedFeatureDepColon(link) => {
                let link = link.try_clone(alloc)?;
                Ok(FeatureEdge::NamedFeatureDepColon(link))
            }
            FeatureEdge::NamedFeatureWithSlash(link) => {
                let link = link.try_clone(alloc)?;
                Ok(FeatureEdge::NamedFeatureWithSlash(link))
            }
            FeatureEdge::NamedFeatureWithWeakSlash(weak) => {
                let weak = weak.try_clone(alloc)?;
                let weak = Box::new(alloc, weak)?;
                Ok(FeatureEdge::NamedFeatureWithWeakSlash(weak))
            }
        }
    }
}
