//! The second pass over the rows: links, with their declarations.
ghost use Rattle.std.specs.Prelude.{◌≡◌, ℕ, ◌+◌, ◌-◌, ◌<◌, ◌≤◌, ◌^◌, ◌∷◌, ◌++◌, [], IfOk, IfErr, OnOk, Some, false, length, slice_get, slice_set};
ghost use Rattle.std.specs.Option.{option_map_or};
ghost use Rattle.guppy_packages.specs.Graph.{NamesRow, Reads, first_or, faults_by, link_fault, links_of, dependencies_of};
ghost use Rattle.guppy_packages.specs.Parts.{first_text};
ghost use Rattle.guppy_packages.specs.Rows.{row_text};
ghost use Rattle.guppy_packages.specs.Stored.{declared, link_table, link_tables, package_tables};
ghost use Rattle.guppy_packages.specs.Tables.{LinkTable, package_place};
ghost use Rattle.guppy_packages.specs.declared.row_error.RowFault.TheVariants.{Memory};
ghost use Rattle.guppy_packages.specs.inner.Begins.{IsBegin};
ghost use Rattle.guppy_packages.specs.inner.Noted.{AreNoted};
ghost use Rattle.guppy_packages.specs.inner.RowTexts.{AreAt, row_texts, stored_texts};
ghost use Rattle.guppy_packages.specs.inner.Steps.{Takes, add_link, begun_after, joined_link, joins, second_step};

use crate::contents::{Link, LinkData};
use crate::declaration::Declaration;
use crate::declarations::Declarations;
use crate::narrow::narrow;
use crate::package_id::PackageId;
use crate::package_list::PackageList;
use crate::pushing::push_to;
use crate::row::Row;
use crate::row_error::{RowError, RowFault};
use crate::row_source::RowSource;
use crate::row_texts::next_name;
use crate::shared::Shared;
use crate::text_list::TextList;
use crate::text_run::TextRun;
use std::alloc::{AllocError, Global};
use std::rc::Rc;

/// The state of the second pass.
#[derive(Drop)]
struct Noted {
    /// For each package, the number of the last link that leads to it.
    last: Vec<u32>,
    /// The number of the current package's first link.
    first: usize,
    /// The number of packages whose Package row is read.
    begun: usize,
    /// The number of texts of the rows that are read.
    at: usize,
    /// What declarations share.
    shared: Shared,
    /// The id of the package that is looked up.
    sought: PackageId,
}

/// Returns whether link `at` joins `from` to `to`. Links before `first` leave other packages and are not looked at.
fn joins_pair(links: &[Link], first: usize, at: usize, from: usize, to: usize) -> bool
    requires { IsBegin (link_tables links.now) from first }
    ensures { result ≡ option_map_or (joins from to) (slice_get (link_tables links.now) at) false }
{
    if at < first {
        return false;
    }
    match links.get(at) {
        Some((pair, _)) => from == pair.0 as usize && to == pair.1 as usize,
        None => false,
    }
}

/// Appends `declaration` to `link`, or returns `OtherName` if it has another name than the link.
fn join_link(alloc: Global, link: &mut LinkData, declaration: Declaration) -> Result<(), RowFault>
    ensures { (pair : ℕ × ℕ) → Takes (link_table (pair, link.new)) result (joined_link (first_text declaration.texts) (declared declaration) (link_table (pair, link.old))) }
{
    if declaration.name() != link.name() {
        return Err(RowFault::OtherName);
    }
    link.declarations.push(alloc, declaration)?;
    Ok(())
}

/// Appends a link for `pair`, which has none, and notes its number in `last`. Returns `Memory` if an allocation fails or a number
/// doesn't fit in 32 bits.
fn begin_link(
    links: &mut Vec<Link>,
    last: &mut Vec<u32>,
    pair: (usize, usize),
    declaration: Declaration,
) -> Result<(), RowFault>
    requires within { pair.1 < length last.old.items }
    ensures links { OnOk result (link_tables links.new.items ≡ link_tables links.old.items ++ record { from = pair.0; to = pair.1; name = first_text declaration.texts; declarations = declared declaration ∷ [] } ∷ []) }
    ensures last { OnOk result (last.new.items ≡ slice_set last.old.items pair.1 (length (link_tables links.old.items))) }
    ensures fault { IfErr result (λ fault. fault ≡ Memory) }
{
    let at = narrow(links.len())?;
    let ends = (narrow(pair.0)?, narrow(pair.1)?);
    let declarations = Declarations::One(declaration);
    push_to(links, (ends, LinkData { declarations }))?;
    last[pair.1] = at;
    Ok(())
}

/// Adds the declaration of a Dep row to the link of its pair, or appends a link. All links that leave `from` are at the end of
/// `links`, so only the last link that leads to `to` can be the pair's.
fn push_link(
    alloc: Global,
    links: &mut Vec<Link>,
    noted: &mut Noted,
    from: usize,
    to: usize,
    declaration: Declaration,
) -> Result<(), RowFault>
    requires within { to < length noted.old.last.items }
    requires noted { AreNoted from (link_tables links.old.items) noted.old.last.items noted.old.first }
    ensures tables { Takes (link_tables links.new.items) result (add_link from to (first_text declaration.texts) (declared declaration) (link_tables links.old.items)) }
    ensures noted { OnOk result (AreNoted from (link_tables links.new.items) noted.new.last.items noted.new.first) }
    ensures count { OnOk result (length noted.new.last.items ≡ length noted.old.last.items) }
{
    let at = noted.last[to] as usize;
    if joins_pair(links, noted.first, at, from, to) {
        return join_link(alloc, &mut links[at].1, declaration);
    }
    begin_link(links, &mut noted.last, (from, to), declaration)
}

/// Returns the number of the package whose id is `id`, which replaces the text of `sought`. `AllocError` is the only error.
fn place_of(
    packages: &PackageList,
    sought: &mut PackageId,
    id: &str,
) -> Result<Option<usize>, AllocError>
    ensures { IfOk result (λ place. place ≡ package_place id.now (package_tables packages.now)) }
{
    sought.set(id)?;
    Ok(packages.place_of(sought))
}

/// Reads a row in the second pass, with `begun` Package rows read. Returns `UnknownTarget` if the target is no package,
/// `OtherName` if the pair's link has another name.
fn link_row(
    alloc: Global,
    packages: &PackageList,
    list: &Rc<TextList>,
    links: &mut Vec<Link>,
    noted: &mut Noted,
    begun: usize,
    row: Row,
) -> Result<(), RowFault>
    requires texts { AreAt list.now.value noted.old.at (row_texts (row_text row)) }
    requires count { length noted.old.last.items ≡ length (package_tables packages.now) }
    requires noted { AreNoted (begun - 1) (link_tables links.old.items) noted.old.last.items noted.old.first }
    ensures tables { Takes (link_tables links.new.items) result (second_step (package_tables packages.now) begun (link_tables links.old.items) (row_text row.entry)) }
    ensures noted { OnOk result (AreNoted (begun - 1) (link_tables links.new.items) noted.new.last.items noted.new.first) }
    ensures count { OnOk result (length noted.new.last.items ≡ length noted.old.last.items) }
{
    let Row::Dep {
        name: _,
        target,
        kind,
        optional,
        platform,
        default_features,
        features,
    } = row
    else {
        return Ok(());
    };
    let Some(to) = place_of(packages, &mut noted.sought, target)? else {
        return Err(RowFault::UnknownTarget);
    };
    let count = narrow(features.len())? as usize + 1;
    let texts = TextRun::new(list, noted.at, count)?;
    let declaration = noted
        .shared
        .declaration(alloc, kind, optional, platform, default_features, texts)?;
    let from = begun.saturating_sub(1);
    push_link(alloc, links, noted, from, to, declaration)
}

/// Returns the number of Package rows read, with `row` included.
fn count(begun: usize, row: Row) -> usize
    requires { begun + 1 < 2 ^ 64 }
    ensures value { result ≡ begun_after begun (row_text row.entry) }
    ensures few { result ≤ begun + 1 }
    ensures kept { begun ≤ result }
{
    match row {
        Row::Package { .. } => begun + 1,
        _ => begun,
    }
}

/// Returns the number of the current package's first link, once `row` is read. Links of the first package begin at 0; those of a
/// later one begin at the end of `links`.
fn first_link(links: &[Link], first: usize, begun: usize, row: Row) -> usize
    requires ends { (k : ℕ) (l : LinkTable) → slice_get (link_tables links.now) k ≡ Some l → l.from ≤ begun - 1 }
    requires begin { IsBegin (link_tables links.now) (begun - 1) first }
    ensures { IsBegin (link_tables links.now) (begun_after begun (row_text row.entry) - 1) result }
{
    match row {
        Row::Package { .. } if begun > 0 => links.len(),
        _ => first,
    }
}

/// Reads a row in the second pass and updates `noted`.
fn take_link(
    alloc: Global,
    packages: &PackageList,
    list: &Rc<TextList>,
    links: &mut Vec<Link>,
    noted: &mut Noted,
    row: Row,
) -> Result<(), RowFault>
    requires few { noted.old.begun + 1 < 2 ^ 64 }
    requires texts { AreAt list.now.value noted.old.at (row_texts (row_text row)) }
    requires count { length noted.old.last.items ≡ length (package_tables packages.now) }
    requires noted { AreNoted (noted.old.begun - 1) (link_tables links.old.items) noted.old.last.items noted.old.first }
    ensures tables { Takes (link_tables links.new.items) result (second_step (package_tables packages.now) noted.old.begun (link_tables links.old.items) (row_text row.entry)) }
    ensures begun { OnOk result (noted.new.begun ≡ begun_after noted.old.begun (row_text row.entry)) }
    ensures few { OnOk result (noted.new.begun ≤ noted.old.begun + 1) }
    ensures at { OnOk result (noted.new.at ≡ noted.old.at + length (row_texts (row_text row.entry))) }
    ensures count { OnOk result (length noted.new.last.items ≡ length (package_tables packages.now)) }
    ensures noted { OnOk result (AreNoted (noted.new.begun - 1) (link_tables links.new.items) noted.new.last.items noted.new.first) }
{
    let begun = noted.begun;
    let next = next_name(noted.at, row)?;
    link_row(alloc, packages, list, links, noted, begun, row)?;
    noted.first = first_link(links, noted.first, begun, row);
    noted.begun = count(begun, row);
    noted.at = next;
    Ok(())
}

/// Runs the second pass and returns the links, or the first fault of a row among all packages. `list` has the texts of all rows. A
/// package's rows are adjacent, so the last link to each package shows whether a pair already has a link. The spare capacity is
/// freed.
pub(crate) fn take_links<S: RowSource>(
    alloc: Global,
    packages: &PackageList,
    list: &Rc<TextList>,
    source: &S,
) -> Result<Vec<Link>, RowError>
    requires { list.now.value ≡ stored_texts (S.rows source.now) }
    ensures tables { Reads (λ links. link_tables links.items) result (first_or (faults_by (link_fault (package_tables packages.now)) (S.rows source.now)) (links_of (dependencies_of (package_tables packages.now) (S.rows source.now)))) }
    ensures row { IfErr result (NamesRow (S.rows source.now)) }
{
    let shared = Shared::new(alloc)?;
    let mut links = Vec::new(alloc);
    let mut noted = Noted {
        last: vec![in alloc; 0u32; packages.len()]?,
        first: 0,
        begun: 0,
        at: 0,
        shared,
        sought: PackageId::new(alloc, "")?,
    };
    for row in 0..source.row_count() {
        if let Err(fault) = take_link(
            alloc,
            packages,
            list,
            &mut links,
            &mut noted,
            source.row(row),
        ) {
            return Err(RowError::new(row, fault));
        }
    }
    links.shrink_to_fit();
    Ok(links)
}
