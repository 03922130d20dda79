//! The first pass over the rows: packages, with their features and the names of their optional dependencies.
ghost use Rattle.std.specs.Prelude.{◌≡◌, ◌+◌, ◌<◌, [], Ok, IfErr, IfOk, length, map};
ghost use Rattle.std.specs.String.{string_bytes};
ghost use Rattle.guppy_packages.specs.Graph.{NamesRow, Reads, first_or, faults_by, row_fault, packages_of};
ghost use Rattle.guppy_packages.specs.NamedFeature.{feature_table, table_of_texts};
ghost use Rattle.guppy_packages.specs.Rows.{row_text};
ghost use Rattle.guppy_packages.specs.Stored.{package_tables};
ghost use Rattle.guppy_packages.specs.inner.RowTexts.{AreAt, row_texts, stored_texts};
ghost use Rattle.guppy_packages.specs.inner.Steps.{Takes, add_package, add_feature, add_name, change_last, first_step, with_feature, with_name};

use crate::contents::PackageData;
use crate::name_set::NameSet;
use crate::named_feature::NamedFeature;
use crate::package_id::PackageId;
use crate::package_list::PackageList;
use crate::row::Row;
use crate::row_error::{RowError, RowFault};
use crate::row_source::RowSource;
use crate::row_texts::next_name;
use crate::text_list::TextList;
use crate::text_run::TextRun;
use std::alloc::{AllocError, Global};
use std::rc::Rc;

/// The number of features and of optional declarations for which a package has room.
#[derive(Clone, Copy)]
struct Room {
    features: usize,
    optional: usize,
}

/// Returns a package with no features and no optional names, with this room. `AllocError` is the only error.
#[inline]
fn blank_package(alloc: Global, in_workspace: bool, room: Room) -> Result<PackageData, AllocError>
    ensures { IfOk result (λ blank. blank ≡ record { in_workspace = in_workspace; features = []; optional_names = [] }) }
{
    Ok(PackageData {
        in_workspace,
        features: NameSet::with_capacity(alloc, room.features)?,
        optional_names: NameSet::with_capacity(alloc, room.optional)?,
    })
}

/// Reads a Package row: appends the package `id`, with this room, or returns `DuplicatePackage` if `packages` already has it.
fn push_package(
    alloc: Global,
    packages: &mut PackageList,
    id: &str,
    in_workspace: bool,
    room: Room,
) -> Result<(), RowFault>
    ensures { Takes (package_tables packages.new) result (add_package id.now in_workspace (package_tables packages.old)) }
{
    let data = blank_package(alloc, in_workspace, room)?;
    let added = packages.insert(PackageId::new(alloc, id)?, data)?;
    if !added {
        return Err(RowFault::DuplicatePackage);
    }
    Ok(())
}

/// Appends the feature with these texts to `features`, or returns `DuplicateFeature` if `features` already has its name.
fn push_feature(features: &mut NameSet<NamedFeature>, texts: TextRun) -> Result<(), RowFault>
    requires { 0 < length texts }
    ensures { Takes (map feature_table features.new) result (with_feature (table_of_texts texts).name (table_of_texts texts).items (map feature_table features.old)) }
{
    let added = features.insert(NamedFeature::new(texts))?;
    if !added {
        return Err(RowFault::DuplicateFeature);
    }
    Ok(())
}

/// Reads a Feature row with these texts into the last package. Returns `NoPackage` if there is none, `DuplicateFeature` if it has a
/// feature of this name.
fn push_feature_row(packages: &mut PackageList, texts: TextRun) -> Result<(), RowFault>
    requires { 0 < length texts }
    ensures { Takes (package_tables packages.new) result (change_last (add_feature (table_of_texts texts).name (table_of_texts texts).items) (package_tables packages.old)) }
{
    let Some(current) = packages.contents.last_mut() else {
        return Err(RowFault::NoPackage);
    };
    push_feature(&mut current.features, texts)
}

/// Inserts `name` into `names`, the optional names of a package.
fn push_name(alloc: Global, names: &mut NameSet<String>, name: &str) -> Result<(), RowFault>
    ensures { Takes (map string_bytes names.new) result (Ok (with_name name.now (map string_bytes names.old))) }
{
    names.insert(String::from_str(alloc, name)?)?;
    Ok(())
}

/// Reads a Dep row in the first pass: inserts `name` into the last package's optional names if `optional` is true. Returns
/// `NoPackage` if there is no package.
fn push_dep_row(
    alloc: Global,
    packages: &mut PackageList,
    name: &str,
    optional: bool,
) -> Result<(), RowFault>
    ensures { Takes (package_tables packages.new) result (change_last (λ p. Ok (add_name name.now optional p)) (package_tables packages.old)) }
{
    let Some(current) = packages.contents.last_mut() else {
        return Err(RowFault::NoPackage);
    };
    if optional {
        return push_name(alloc, &mut current.optional_names, name);
    }
    Ok(())
}

/// Frees the spare capacity of the last package, whose rows are all read.
fn end_package(packages: &mut PackageList)
    ensures { package_tables packages.new ≡ package_tables packages.old }
{
    let Some(last) = packages.contents.last_mut() else {
        return;
    };
    last.features.shrink_to_fit();
    last.optional_names.shrink_to_fit();
}

/// Reads a row in the first pass, or returns its fault. Its names are those of `names` from `at` up to, not including, `next`. A new
/// package has this room.
fn take_row(
    alloc: Global,
    packages: &mut PackageList,
    names: &Rc<TextList>,
    at: usize,
    next: usize,
    row: Row,
    room: Room,
) -> Result<(), RowFault>
    requires names { AreAt names.now.value at (row_texts (row_text row)) }
    requires next { next ≡ at + length (row_texts (row_text row)) }
    ensures { Takes (package_tables packages.new) result (first_step (package_tables packages.old) (row_text row.entry)) }
{
    match row {
        Row::Package { id, in_workspace } => {
            end_package(packages);
            push_package(alloc, packages, id, in_workspace, room)
        }
        Row::Feature { .. } => {
            let text = TextRun::new(names, at, next - at)?;
            push_feature_row(packages, text)
        }
        Row::Dep { name, optional, .. } => push_dep_row(alloc, packages, name, optional),
    }
}

/// Reads a row in the first pass, or returns its fault. Its names begin at `at` in `names`; returns where those of the next row begin.
/// A new package has this room.
fn take_row_at(
    alloc: Global,
    packages: &mut PackageList,
    names: &Rc<TextList>,
    at: usize,
    row: Row,
    room: Room,
) -> Result<usize, RowFault>
    requires names { AreAt names.now.value at (row_texts (row_text row)) }
    ensures tables { Takes (package_tables packages.new) result (first_step (package_tables packages.old) (row_text row.entry)) }
    ensures next { IfOk result (λ next. next ≡ at + length (row_texts (row_text row.entry))) }
{
    let next = next_name(at, row)?;
    take_row(alloc, packages, names, at, next, row, room)?;
    Ok(next)
}

/// The room of a package that has no rows of its own.
const NO_ROOM: Room = Room {
    features: 0,
    optional: 0,
};

/// Returns the room for the rows from row `start` up to the next Package row, or up to the end.
fn room_from<S: RowSource>(source: &S, start: usize) -> Room {
    let mut room = NO_ROOM;
    for ix in start..source.row_count() {
        match source.row(ix) {
            Row::Package { .. } => return room,
            Row::Feature { .. } => room.features = room.features.saturating_add(1),
            Row::Dep { optional, .. } if optional => {
                room.optional = room.optional.saturating_add(1);
            }
            Row::Dep { .. } => {}
        }
    }
    room
}

/// Returns the room that a package needs, if `row` is its Package row and row `next` is the one after it. For any other row there is
/// none.
fn room_for<S: RowSource>(source: &S, row: Row, next: usize) -> Room {
    match row {
        Row::Package { .. } => room_from(source, next),
        Row::Feature { .. } | Row::Dep { .. } => NO_ROOM,
    }
}

/// Runs the first pass and returns the packages, or the first fault of a row by itself. `names` has the texts of all rows. The list's
/// spare capacity is freed.
pub(crate) fn take_packages<S: RowSource>(
    alloc: Global,
    names: &Rc<TextList>,
    source: &S,
) -> Result<PackageList, RowError>
    requires { names.now.value ≡ stored_texts (S.rows source.now) }
    ensures tables { Reads package_tables result (first_or (faults_by row_fault (S.rows source.now)) (packages_of (S.rows source.now))) }
    ensures row { IfErr result (NamesRow (S.rows source.now)) }
{
    let mut packages = PackageList::new(alloc);
    let mut at = 0;
    for ix in 0..source.row_count() {
        let row = source.row(ix);
        let room = room_for(source, row, ix + 1);
        match take_row_at(alloc, &mut packages, names, at, row, room) {
            Ok(next) => at = next,
            Err(fault) => return Err(RowError::new(ix, fault)),
        }
    }
    end_package(&mut packages);
    packages.shrink_to_fit();
    Ok(packages)
}
