//! The greatest number of a node.
ghost use Rattle.std.specs.Prelude.{◌≡◌, ◌<◌, ◌≤◌, ℕ, Contains, IfOk, max};

use std::alloc::AllocError;

/// Returns the larger number.
fn larger(a: usize, b: usize) -> usize
    ensures { result ≡ max a b }
{
    if a < b { b } else { a }
}

/// Returns the greatest of `numbers`, or 0 without any.
pub(crate) fn greatest(numbers: &[usize]) -> usize
    ensures { (n : ℕ) → Contains numbers.now n → n ≤ result }
{
    let mut greatest = 0;
    for number in numbers {
        greatest = larger(greatest, *number);
    }
    greatest
}

/// Returns the greatest number in `links`, or 0 without any.
fn greatest_end(links: &[(usize, usize)]) -> usize
    ensures { (from to : ℕ) → Contains links.now (from, to) → (from ≤ result) × (to ≤ result) }
{
    let mut greatest = 0;
    for link in links {
        greatest = larger(greatest, larger(link.0, link.1));
    }
    greatest
}

/// Returns the number of nodes, which are numbered from 0 to the greatest number in `links` and `targets`. An error is returned if it
/// doesn't fit.
pub(crate) fn node_count(links: &[(usize, usize)], targets: &[usize]) -> Result<usize, AllocError>
    ensures links { IfOk result (λ count. (from to : ℕ) → Contains links.now (from, to) → (from < count) × (to < count)) }
    ensures targets { IfOk result (λ count. (n : ℕ) → Contains targets.now n → n < count) }
{
    match larger(greatest_end(links), greatest(targets)).checked_add(1) {
        Some(count) => Ok(count),
        None => Err(AllocError),
    }
}
