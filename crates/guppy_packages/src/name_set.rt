//! Sets of named things, in insertion order.
//!
//! Most packages have few names, which are scanned. A package may also have thousands, which are in an `IndexSet`.
ghost use Rattle.std.specs.Prelude.{◌≡◌, [], IfOk, not, position};
ghost use Rattle.std.specs.List.{list_any};
ghost use Rattle.indexmap.specs.IndexSet.{insert_key};
ghost use Rattle.guppy_packages.specs.inner.NameSets.{held_items};

use crate::pushing::push_to;
use crate::text_map::{TextSet, insert_into};
use indexmap::{Equivalent, IndexSet};
use std::alloc::{AllocError, Global};
use std::hash::{BuildHasherDefault, Hash};
use std::marker::Model;

/// The most items for which a set without an index has room. An index takes as much memory as many names.
const FEW: usize = 16;

/// The items of a set, in insertion order.
#[derive(Drop)]
pub(crate) enum Held<T: Eq + Hash> {
    Few(Vec<T>),
    Many(Box<TextSet<T>>),
}

/// A set in insertion order. A contract sees it as the list of its items.
#[derive(Drop)]
pub(crate) struct NameSet<T: Eq + Hash> {
    held: Held<T>,
}

impl<T: Eq + Hash> Model for NameSet<T> {
    ghost use Rattle.std.specs.Prelude.{List};
    ghost use Rattle.guppy_packages.specs.inner.NameSets.{held_items};

    ghost Value = { List T };

    ghost view = { λ s. held_items s.held };
}

/// Returns whether an item of `items` is equal to `item`.
fn has<T: Eq + Hash>(items: &[T], item: &T) -> bool
    ensures { result ≡ list_any (T.eq item.now) items.now }
{
    items.iter().any(|held| item.eq(held))
}

/// Appends `item` unless an equal one is there, and returns whether it did. `AllocError` is the only error.
#[inline]
fn insert_few<T: Eq + Hash + Drop>(items: &mut Vec<T>, item: T) -> Result<bool, AllocError>
    ensures added { IfOk result (λ added. added ≡ not (list_any (T.eq item) items.old.items)) }
    ensures items { IfOk result (λ _. items.new.items ≡ insert_key T.eq items.old.items item) }
{
    if has(items, &item) {
        return Ok(false);
    }
    push_to(items, item)?;
    Ok(true)
}

/// Returns the empty index, with room for `room` items. `AllocError` is the only error.
fn indexed<T: Eq + Hash + Drop>(alloc: Global, room: usize) -> Result<Held<T>, AllocError>
    ensures { IfOk result (λ held. held_items held ≡ []) }
{
    let names = IndexSet::with_capacity_and_hasher(alloc, room, BuildHasherDefault::new())?;
    Ok(Held::Many(Box::new(alloc, names)?))
}

/// Appends `item` unless an equal one is there, and returns whether it did. `AllocError` is the only error.
fn insert_held<T: Eq + Hash + Drop>(held: &mut Held<T>, item: T) -> Result<bool, AllocError>
    ensures added { IfOk result (λ added. added ≡ not (list_any (T.eq item) (held_items held.old))) }
    ensures items { IfOk result (λ _. held_items held.new ≡ insert_key T.eq (held_items held.old) item) }
{
    match held {
        Held::Few(items) => insert_few(items, item),
        Held::Many(names) => insert_into(names, item),
    }
}

impl<T: Eq + Hash + Drop> NameSet<T> {
    /// Returns the empty set for `room` items. A set for more than `FEW` has an index. `AllocError` is the only error.
    pub(crate) fn with_capacity(alloc: Global, room: usize) -> Result<NameSet<T>, AllocError>
        ensures { IfOk result (λ set. set ≡ []) }
    {
        let held = if room > FEW {
            indexed(alloc, room)?
        } else {
            Held::Few(Vec::with_capacity(alloc, room)?)
        };
        Ok(NameSet { held })
    }

    /// Returns the items, in insertion order.
    pub(crate) fn as_slice(&self) -> &[T]
        ensures { result.now ≡ self.now }
    {
        match &self.held {
            Held::Few(items) => items.as_slice(),
            Held::Many(names) => names.as_slice(),
        }
    }

    /// Returns the index of the item that `name` stands for.
    pub(crate) fn place_of<Q: Equivalent<T>>(&self, name: Q) -> Option<usize>
        ensures { result ≡ position (Q.equivalent name) self.now }
    {
        match &self.held {
            Held::Few(items) => items.iter().position(|item| name.equivalent(item)),
            Held::Many(names) => names.get_index_of(name),
        }
    }

    /// Appends `item` unless an equal one is there, and returns whether it did. `AllocError` is the only error.
    pub(crate) fn insert(&mut self, item: T) -> Result<bool, AllocError>
        ensures added { IfOk result (λ added. added ≡ not (list_any (T.eq item) self.old)) }
        ensures items { IfOk result (λ _. self.new ≡ insert_key T.eq self.old item) }
    {
        insert_held(&mut self.held, item)
    }

    /// Frees the spare capacity.
    pub(crate) fn shrink_to_fit(&mut self)
        ensures { self.new ≡ self.old }
    {
        match &mut self.held {
            Held::Few(items) => items.shrink_to_fit(),
            Held::Many(names) => names.shrink_to_fit(),
        }
    }
}
