//! The nearest start of each owner.
ghost use Rattle.std.specs.Prelude.{◌≡◌, ◌==◌, ◌<◌, ℕ, IfOk, None, Some, if◌then◌else◌, length, replicate, slice_get, slice_index_or};
ghost use Rattle.shortest_routes.specs.Routes.{IsStartOf};
ghost use Rattle.shortest_routes.specs.inner.Nearest as spec;

use crate::numbers::greatest;
use crate::step::{Step, step_at};
use std::alloc::{AllocError, Global};

/// Returns the distance of `node`; 0 if it has no step.
fn distance_at(table: &[Option<Step>], node: usize) -> usize
    ensures { result ≡ spec.distance_at table.now node }
{
    match step_at(table, node) {
        Some(step) => step.distance,
        None => 0,
    }
}

/// Returns whether `node` has a step, and is nearer than `than`, if that is a node.
fn is_nearer(table: &[Option<Step>], than: Option<usize>, node: usize) -> bool
    ensures { result ≡ spec.is_nearer table.now than node }
{
    match step_at(table, node) {
        Some(step) => match than {
            Some(other) => step.distance < distance_at(table, other),
            None => true,
        },
        None => false,
    }
}

/// Returns the nearer of `best` and `node`.
fn nearer(table: &[Option<Step>], best: Option<usize>, node: usize) -> Option<usize>
    ensures { result ≡ spec.nearer table.now best node }
{
    if is_nearer(table, best, node) {
        Some(node)
    } else {
        best
    }
}

/// Returns the nearest start of `owner`, if there is one.
fn start_of(nearest: &[Option<usize>], owner: usize) -> Option<usize>
    ensures { result ≡ slice_index_or nearest.now owner None }
{
    match nearest.get(owner) {
        Some(start) => *start,
        None => None,
    }
}

/// Sets the nearest start of `owner` to `start`, if that is nearer.
fn note(table: &[Option<Step>], nearest: &mut Vec<Option<usize>>, owner: usize, start: usize)
    requires { owner < length nearest.old.items }
    ensures size { length nearest.new.items ≡ length nearest.old.items }
    ensures noted { (o : ℕ) → slice_index_or nearest.new.items o None ≡ (if owner == o then spec.nearer table.now (slice_index_or nearest.old.items o None) start else slice_index_or nearest.old.items o None) }
{
    nearest[owner] = nearer(table, start_of(nearest, owner), start);
}

/// Does so for the owner of `start`.
fn note_start(
    table: &[Option<Step>],
    owners: &[usize],
    nearest: &mut Vec<Option<usize>>,
    start: usize,
)
    requires { (node owner : ℕ) → slice_get owners.now node ≡ Some owner → owner < length nearest.old.items }
    ensures size { length nearest.new.items ≡ length nearest.old.items }
    ensures noted { (o : ℕ) → slice_index_or nearest.new.items o None ≡ spec.noted table.now owners.now start o (slice_index_or nearest.old.items o None) }
{
    if let Some(owner) = owners.get(start) {
        note(table, nearest, *owner, start);
    }
}

/// Returns a table of `count` owners without a start.
fn blank(alloc: Global, count: usize) -> Result<Vec<Option<usize>>, AllocError>
    ensures { IfOk result (λ nearest. nearest.items ≡ replicate count None) }
{
    let mut nearest = Vec::with_capacity(alloc, count)?;
    for _owner in 0..count {
        nearest.push(None)?;
    }
    Ok(nearest)
}

/// Returns the number after the greatest of `owners`.
fn owner_count(owners: &[usize]) -> Result<usize, AllocError>
    ensures { IfOk result (λ count. (node owner : ℕ) → slice_get owners.now node ≡ Some owner → owner < count) }
{
    match greatest(owners).checked_add(1) {
        Some(count) => Ok(count),
        None => Err(AllocError),
    }
}

/// Returns for each owner the nearest of its `starts`, if one has a step. `owners` are those of the nodes.
pub(crate) fn nearest_starts(
    alloc: Global,
    table: &[Option<Step>],
    owners: &[usize],
    starts: &[usize],
) -> Result<Vec<Option<usize>>, AllocError>
    ensures size { IfOk result (λ nearest. (node owner : ℕ) → slice_get owners.now node ≡ Some owner → owner < length nearest.items) }
    ensures nearest { IfOk result (λ nearest. (o : ℕ) → spec.IsNearest table.now (IsStartOf owners.now starts.now o) (slice_index_or nearest.items o None)) }
{
    let count = owner_count(owners)?;
    let mut nearest = blank(alloc, count)?;
    for start in starts {
        note_start(table, owners, &mut nearest, *start);
    }
    Ok(nearest)
}
