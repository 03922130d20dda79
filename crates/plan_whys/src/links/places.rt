//! Links by the indexes of numbers in a list.
ghost use Rattle.std.specs.Prelude.{◌≡◌, ◌++◌, ◌==◌, ℕ, IfOk, OnOk, AllPairs, IsPermutation, None, flat_map, option_map, replicate, slice_get};
ghost use Rattle.guppy_packages.specs.Tables.{HasNoRepeats};
ghost use Rattle.plan_whys.specs.links.Links.{ArePairsOf};
ghost use Rattle.plan_whys.specs.links.inner.Pairs.{AreBelow, IsUpTo, Joins};
ghost use Rattle.plan_whys.specs.links.inner.Places.{ArePlaces, both, noted, place_in};

use std::alloc::{AllocError, Global};

/// Returns a table of `size` places without an index.
fn blank(alloc: Global, size: usize) -> Result<Vec<Option<usize>>, AllocError>
    ensures { IfOk result (λ places. places.items ≡ replicate size None) }
{
    let mut places = Vec::with_capacity(alloc, size)?;
    for _place in 0..size {
        places.push(None)?;
    }
    Ok(places)
}

/// Notes that `number` has `index`, unless it has one already.
fn note(places: &mut Vec<Option<usize>>, number: usize, index: usize)
    ensures { (k : ℕ) → slice_get places.new.items k ≡ option_map (noted (number == k) index) (slice_get places.old.items k) }
{
    if number < places.len() && places[number].is_none() {
        places[number] = Some(index);
    }
}

/// Returns the index in `numbers` of each number below `size`.
fn places_of(
    alloc: Global,
    size: usize,
    numbers: &[usize],
) -> Result<Vec<Option<usize>>, AllocError>
    ensures { IfOk result (λ places. ArePlaces size numbers.now places.items) }
{
    let mut places = blank(alloc, size)?;
    for (index, number) in numbers.iter().enumerate() {
        note(&mut places, *number, index);
    }
    Ok(places)
}

/// Returns the index of `number`.
fn index_of(places: &[Option<usize>], number: usize) -> Option<usize>
    ensures { result ≡ place_in places.now number }
{
    match places.get(number) {
        Some(place) => *place,
        None => None,
    }
}

/// Appends the pair of `from` and `to`, if both are there.
fn push_both(
    links: &mut Vec<(usize, usize)>,
    from: Option<usize>,
    to: Option<usize>,
) -> Result<(), AllocError>
    ensures { OnOk result (links.new.items ≡ links.old.items ++ both from to) }
{
    if let Some(from) = from
        && let Some(to) = to
    {
        links.push((from, to))?;
    }
    Ok(())
}

/// Returns the indexes of the numbers of each of `pairs`, if both have one.
fn linked(
    alloc: Global,
    places: &[Option<usize>],
    pairs: &[(usize, usize)],
) -> Result<Vec<(usize, usize)>, AllocError>
    ensures { IfOk result (λ links. links.items ≡ flat_map (λ p. both (place_in places.now p.0) (place_in places.now p.1)) pairs.now) }
{
    let mut links = Vec::with_capacity(alloc, pairs.len())?;
    for pair in pairs {
        push_both(
            &mut links,
            index_of(places, pair.0),
            index_of(places, pair.1),
        )?;
    }
    Ok(links)
}

/// Sorts `links` by the first number, then by the second.
fn sort_links(links: &mut Vec<(usize, usize)>)
    ensures permutation { IsPermutation links.old.items links.new.items }
    ensures sorted { AllPairs IsUpTo links.new.items }
{
    links.sort_unstable();
}

/// Returns the indexes in `numbers` of the numbers of each of `pairs`, if both are there, sorted. The numbers in `pairs` are below `size`.
pub(crate) fn links_between(
    alloc: Global,
    size: usize,
    numbers: &[usize],
    pairs: &[(usize, usize)],
) -> Result<Vec<(usize, usize)>, AllocError>
    requires below { AreBelow size pairs.now }
    requires once { HasNoRepeats pairs.now }
    ensures { IfOk result (λ links. ArePairsOf (Joins numbers.now pairs.now) links.items) }
{
    let places = places_of(alloc, size, numbers)?;
    let mut links = linked(alloc, &places, pairs)?;
    sort_links(&mut links);
    Ok(links)
}
