//! Reads rows into tables: their texts, and then the packages and the links, in two passes.
ghost use Rattle.std.specs.Prelude.{◌≡◌, IfOk, IfErr};
ghost use Rattle.guppy_packages.specs.Graph.{NamesRow, Reads, tables_of};
ghost use Rattle.guppy_packages.specs.Stored.{link_tables, package_tables};
ghost use Rattle.guppy_packages.specs.Tables.{AreTables};

use crate::contents::Link;
use crate::first_pass::take_packages;
use crate::package_list::PackageList;
use crate::row_error::RowError;
use crate::row_source::RowSource;
use crate::row_texts::stored_texts;
use crate::second_pass::take_links;
use std::alloc::{AllocError, Global};
use std::marker::Model;

/// Packages and links that are not yet in order. They share nothing with the source of their rows, which can be dropped before the
/// graph is made of them. A contract sees them as plain tables.
pub struct PackageTables {
    pub(crate) packages: PackageList,
    pub(crate) links: Vec<Link>,
}

impl Drop for PackageTables {
    // Written out, so that a crate above calls it. A derived drop is proved in each crate that drops a value, with those of all fields.
    fn drop(self) {
        let PackageTables {
            packages: _packages,
            links: _links,
        } = self;
    }
}

impl Model for PackageTables {
    ghost use Rattle.guppy_packages.specs.Stored.{package_tables, link_tables};
    ghost use Rattle.guppy_packages.specs.Tables.{Tables, AreTables};

    ghost Value = { Tables };

    ghost view = { λ t. record { packages = package_tables t.packages; links = link_tables t.links.items } };

    ghost invariant = { λ t. AreTables (record { packages = package_tables t.packages; links = link_tables t.links.items }) };
}

/// Runs both passes and returns the packages and the links.
fn take_tables<S: RowSource>(
    alloc: Global,
    source: &S,
) -> Result<(PackageList, Vec<Link>), RowError>
    ensures tables { Reads (λ both. record { packages = package_tables both.0; links = link_tables both.1.items }) result (tables_of (S.rows source.now)) }
    ensures sound { IfOk result (λ both. AreTables (record { packages = package_tables both.0; links = link_tables both.1.items })) }
    ensures row { IfErr result (NamesRow (S.rows source.now)) }
{
    let names = stored_texts(alloc, source)?;
    let packages = take_packages(alloc, &names, source)?;
    let links = take_links(alloc, &packages, &names, source)?;
    Ok((packages, links))
}

impl PackageTables {
    /// Returns the tables of the rows of `source`, or the first fault. Faults of rows by themselves precede those among all packages.
    /// `Memory` is returned when an allocation fails, or if there are more than 4294967295 texts of features and dependencies, or package
    /// links ([limits](../../../docs/DIFFERENCES.md#limits)). Each row is requested at most four times.
    pub fn from_source<S: RowSource>(alloc: Global, source: &S) -> Result<PackageTables, RowError>
        ensures tables { Reads (λ tables. tables) result (tables_of (S.rows source.now)) }
        ensures row { IfErr result (NamesRow (S.rows source.now)) }
    {
        let (packages, links) = take_tables(alloc, source)?;
        Ok(PackageTables { packages, links })
    }

    /// Returns the packages and the links.
    pub(crate) fn into_parts(self) -> (PackageList, Vec<Link>)
        ensures { record { packages = package_tables result.0; links = link_tables result.1.items } ≡ self }
    {
        let PackageTables { packages, links } = self;
        (packages, links)
    }
}
