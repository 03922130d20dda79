//! Parts of lists.
ghost use Rattle.std.specs.Prelude.{◌≡◌, drop, take};

/// Splits `items` after the first `count`, or after all if there are fewer.
fn parted<T>(items: &[T], count: usize) -> (&[T], &[T])
    ensures first { result.0.now ≡ take count items.now }
    ensures rest { result.1.now ≡ drop count items.now }
{
    if count < items.len() {
        items.split_at(count)
    } else {
        items.split_at(items.len())
    }
}

/// Returns `count` items from place `from` on, or fewer if `items` ends there, and the place after the last of them.
pub(crate) fn part_at<T>(items: &[T], from: usize, count: usize) -> (&[T], usize)
    ensures part { result.0.now ≡ take count (drop from items.now) }
    ensures after { drop result.1 items.now ≡ drop count (drop from items.now) }
{
    let (_, left) = parted(items, from);
    let (part, rest) = parted(left, count);
    (part, items.len() - rest.len())
}
