//! Packages by number, found by id.
ghost use Rattle.std.specs.Prelude.{◌≡◌, ◌<◌, ◌++◌, ◌∷◌, [], IfOk, OnErr, Some, if◌then◌else◌, length, not, position, slice_get};
ghost use Rattle.std.specs.List.{list_any};
ghost use Rattle.std.specs.Str.{bytes_eq};

use crate::contents::PackageData;
use crate::package_id::PackageId;
use crate::pushing::push_to;
use crate::text_map::{TextSet, insert_into};
use indexmap::IndexSet;
use std::alloc::{AllocError, Global};
use std::hash::BuildHasherDefault;
use std::marker::Model;

/// Packages by number, found by id. A contract sees it as the list of their ids and contents.
#[derive(Drop)]
pub(crate) struct PackageList {
    ids: TextSet<PackageId>,
    pub(crate) contents: Vec<PackageData>,
}

impl Model for PackageList {
    ghost use Rattle.std.specs.Prelude.{◌≡◌, List, length};
    ghost use Rattle.std.specs.List.{zip};
    ghost use Rattle.guppy_packages.specs.Rows.{Text};
    ghost use Rattle.guppy_packages.specs.declared.contents.PackageData.{PackageData};

    ghost Value = { List (Text × PackageData) };

    ghost view = { λ l. zip l.ids.keys l.contents.items };

    ghost invariant = { λ l. length l.contents.items ≡ length l.ids.keys };
}

impl PackageList {
    /// Returns the list of no packages, which allocates nothing.
    pub(crate) fn new(alloc: Global) -> PackageList
        ensures { result ≡ [] }
    {
        PackageList {
            ids: IndexSet::with_hasher(alloc, BuildHasherDefault::new()),
            contents: Vec::new(alloc),
        }
    }

    /// Returns the number of packages.
    pub(crate) fn len(&self) -> usize
        ensures { result ≡ length self.now }
    {
        self.contents.len()
    }

    /// Returns the id and the contents of package `ix`.
    pub(crate) fn get(&self, ix: usize) -> (&PackageId, &PackageData)
        requires { ix < length self.now }
        ensures { slice_get self.now ix ≡ Some (result.0.now, result.1.now) }
    {
        let Some(id) = self.ids.get_index(ix) else {
            unreachable!()
        };
        (id, &self.contents[ix])
    }

    /// Returns the number of the package whose id is `id`.
    pub(crate) fn place_of(&self, id: &PackageId) -> Option<usize>
        ensures { result ≡ position (λ e. bytes_eq id.now e.0) self.now }
    {
        self.ids.get_index_of(id)
    }

    /// Appends the package with the id `id`, unless a package of this id is there, and returns whether it did. `AllocError` is the only
    /// error, and then the list is unchanged.
    pub(crate) fn insert(
        &mut self,
        id: PackageId,
        contents: PackageData,
    ) -> Result<bool, AllocError>
        ensures added { IfOk result (λ added. added ≡ not (list_any (λ e. bytes_eq id e.0) self.old)) }
        ensures packages { IfOk result (λ added. self.new ≡ (if added then self.old ++ (id, contents) ∷ [] else self.old)) }
        ensures kept { OnErr result (self.new ≡ self.old) }
    {
        let at = self.contents.len();
        push_to(&mut self.contents, contents)?;
        match insert_into(&mut self.ids, id) {
            Ok(true) => Ok(true),
            Ok(false) => {
                self.contents.truncate(at);
                Ok(false)
            }
            Err(error) => {
                self.contents.truncate(at);
                Err(error)
            }
        }
    }

    /// Frees the spare capacity.
    pub(crate) fn shrink_to_fit(&mut self)
        ensures { self.new ≡ self.old }
    {
        self.ids.shrink_to_fit();
        self.contents.shrink_to_fit();
    }
}
