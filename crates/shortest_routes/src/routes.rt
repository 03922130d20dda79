//! The shortest routes from the starts of each owner.
ghost use Rattle.std.specs.Prelude.{IfOk, IfSome, OnOk, length, map};
ghost use Rattle.shortest_routes.specs.Routes.{AreShortestRoutes, route_text};
ghost use Rattle.shortest_routes.specs.inner.Nearest.{AppendsRoute, AreAnySteps, AreRoutesTo, HaveSteps};
ghost use Rattle.shortest_routes.specs.inner.Searches.{HasStep};

use crate::chains::route_from;
use crate::nearest::nearest_starts;
use crate::search::steps_to;
use crate::step::Step;
use std::alloc::{AllocError, Global};

/// A shortest route from the starts of an owner.
#[derive(Drop)]
pub struct Route {
    pub owner: usize,
    /// From a start to a target.
    pub nodes: Vec<usize>,
}

/// Appends the route of `owner` from `start`, if there is a start.
fn push_route(
    alloc: Global,
    table: &[Option<Step>],
    routes: &mut Vec<Route>,
    owner: usize,
    start: Option<usize>,
) -> Result<(), AllocError>
    requires steps { AreAnySteps table.now }
    requires start { IfSome start (HasStep table.now) }
    ensures { OnOk result (AppendsRoute table.now owner start (map route_text routes.old.items) (map route_text routes.new.items)) }
{
    if let Some(start) = start {
        let nodes = route_from(alloc, table, start)?;
        routes.push(Route { owner, nodes })?;
    }
    Ok(())
}

/// Returns the route of each owner from its nearest start, if it has one.
fn routes_by(
    alloc: Global,
    table: &[Option<Step>],
    nearest: &[Option<usize>],
) -> Result<Vec<Route>, AllocError>
    requires steps { AreAnySteps table.now }
    requires starts { HaveSteps table.now nearest.now }
    ensures { IfOk result (λ routes. AreRoutesTo table.now nearest.now (length nearest.now) (map route_text routes.items)) }
{
    let mut routes = Vec::new(alloc);
    for (owner, start) in nearest.iter().enumerate() {
        push_route(alloc, table, &mut routes, owner, *start)?;
    }
    Ok(routes)
}

/// Returns a shortest route to one of `targets` for each owner from whose starts a route leads, in the order of the owners. A link leads from
/// its first node to its second, `owners` are those of the nodes, and each of `starts` is a start of its owner. Time is linear, and memory
/// grows with the greatest number of a node and of an owner. An allocation's failure is the only error.
pub fn shortest_routes(
    alloc: Global,
    links: &[(usize, usize)],
    targets: &[usize],
    owners: &[usize],
    starts: &[usize],
) -> Result<Vec<Route>, AllocError>
    ensures { IfOk result (λ routes. AreShortestRoutes links.now targets.now owners.now starts.now (map route_text routes.items)) }
{
    let table = steps_to(alloc, links, targets)?;
    let nearest = nearest_starts(alloc, &table, owners, starts)?;
    routes_by(alloc, &table, &nearest)
}
