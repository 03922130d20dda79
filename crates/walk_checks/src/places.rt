//! The places of nodes in the steps of an explanation.

ghost use Rattle.std.specs.Prelude.{◌≡◌, IfOk, None, Some, replicate, slice_set};
ghost use Rattle.walk_checks.specs.Places.{ArePlaces, place_of};

use std::alloc::{AllocError, Global};
use walk_engine::Step;

/// For each node, the place of its step in the steps of one explanation. It serves any number of calls about
/// the same steps.
#[derive(Drop)]
pub struct StepPlaces {
    places: Vec<Option<usize>>,
}

/// Returns a list of `count` times `None`.
fn unknown_places(alloc: Global, count: usize) -> Result<Vec<Option<usize>>, AllocError>
    ensures { IfOk result (λ places. places.items ≡ replicate count None) }
{
    vec![in alloc; None; count]
}

/// Sets the place of `node`, if it is below the length of `places`.
fn put(places: &mut Vec<Option<usize>>, node: usize, place: usize)
    ensures { places.new.items ≡ slice_set places.old.items node (Some place) }
{
    if node < places.len() {
        places[node] = Some(place);
    }
}

impl StepPlaces {
    /// Returns the places of the nodes below `node_count` in `steps`. If `steps` lists a node twice, it has one
    /// of its places. The time is linear in `node_count` and the steps. `AllocError` is returned when an
    /// allocation fails.
    pub fn of(alloc: Global, node_count: usize, steps: &[Step]) -> Result<StepPlaces, AllocError>
        ensures { IfOk result (ArePlaces node_count steps.now) }
    {
        let mut places = unknown_places(alloc, node_count)?;
        for (place, step) in steps.iter().enumerate() {
            put(&mut places, step.node, place);
        }
        Ok(StepPlaces { places })
    }

    /// Returns the place of the step of `node`, or `None` if it has no step.
    pub fn place(&self, node: usize) -> Option<usize>
        ensures { result ≡ place_of self.now node }
    {
        match self.places.get(node) {
            Some(place) => *place,
            None => None,
        }
    }
}
