//! Maps and sets whose keys are texts from outside.
//!
//! They hash by SipHash with a fixed key. An author of the texts can search for collisions, but no simple pattern collides, as it
//! would with a multiplying hasher.
ghost use Rattle.std.specs.Prelude.{◌≡◌, IfOk, OnErr, not};
ghost use Rattle.std.specs.List.{list_any};
ghost use Rattle.indexmap.specs.IndexSet.{insert_key};

use indexmap::{IndexMap, IndexSet};
use std::alloc::AllocError;
use std::hash::{BuildHasherDefault, DefaultHasher, Hash};

/// A map keyed by texts.
pub(crate) type TextMap<K, V> = IndexMap<K, V, BuildHasherDefault<DefaultHasher>>;

/// A set of texts.
pub(crate) type TextSet<K> = IndexSet<K, BuildHasherDefault<DefaultHasher>>;

/// Inserts `key` into `set` unless an equal one is there, and returns whether it did. `AllocError` is the only error, and then `set` is
/// unchanged.
pub(crate) fn insert_into<K: Eq + Hash + Drop>(
    set: &mut TextSet<K>,
    key: K,
) -> Result<bool, AllocError>
    ensures added { IfOk result (λ added. added ≡ not (list_any (K.eq key) set.old.keys)) }
    ensures keys { IfOk result (λ _. set.new.keys ≡ insert_key K.eq set.old.keys key) }
    ensures kept { OnErr result (set.new.keys ≡ set.old.keys) }
{
    match set.insert(key) {
        Ok(added) => Ok(added),
        Err(_) => Err(AllocError),
    }
}
