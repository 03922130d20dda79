//! Iterators over features and packages as text.
use crate::shared::Out;
use crate::surface::told::tell_error;
use guppy_features::{Error, FeatureId, FeatureMetadata, PackageMetadata};

/// An item that is written as its id.
pub trait Named: Copy {
    /// Writes the id.
    fn write(self, out: &Out);
}

impl Named for FeatureId<'_> {
    fn write(self, out: &Out) {
        out.shown(self);
    }
}

impl Named for FeatureMetadata<'_> {
    fn write(self, out: &Out) {
        out.shown(self.feature_id());
    }
}

impl Named for PackageMetadata<'_> {
    fn write(self, out: &Out) {
        out.part(self.id().repr());
    }
}

/// Writes the count of `items`, `between`, and the items, as one line.
pub fn tell_counted<T: Named, I: ExactSizeIterator<Item = T>>(
    out: &Out,
    between: &str,
    mut items: I,
)
    requires { (items : _) → I.can_next items }
{
    let count = items.len();
    out.number("", count);
    out.part(between);
    for _step in 0..count {
        if let Some(item) = items.next() {
            out.part(" ");
            item.write(out);
        }
    }
    out.line("");
}

/// Writes the count of `items` and the items, or the error.
pub fn tell_items<T: Named, I: ExactSizeIterator<Item = T> + Drop>(
    out: &Out,
    items: Result<I, Error<'_>>,
)
    requires { (items : _) → I.can_next items }
{
    match items {
        Ok(items) => tell_counted(out, ":", items),
        Err(error) => tell_error(out, error),
    }
}

/// Writes the first item, or `no first`.
pub fn tell_first<T: Named, I: Iterator<Item = T>>(out: &Out, mut items: I)
    requires { (items : _) → I.can_next items }
{
    match items.next() {
        Some(item) => {
            out.part("first ");
            item.write(out);
            out.line("");
        }
        None => out.line("no first"),
    }
}

/// Writes the first item, or `no first`, or the error.
pub fn tell_first_of<T: Named, I: Iterator<Item = T> + Drop>(out: &Out, items: Result<I, Error<'_>>)
    requires { (items : _) → I.can_next items }
{
    match items {
        Ok(items) => tell_first(out, items),
        Err(error) => tell_error(out, error),
    }
}

/// Writes three values: the count of `items`, the count left after reading them all, and whether each of two further reads
/// returns `None`. The texts `before`, `between` and `after` precede them.
pub fn tell_end<T: Named, I: ExactSizeIterator<Item = T>>(
    out: &Out,
    before: &str,
    between: &str,
    after: &str,
    mut items: I,
)
    requires { (items : _) → I.can_next items }
{
    let count = items.len();
    for _step in 0..count {
        let _item = items.next();
    }
    out.number(before, count);
    out.number(between, items.len());
    let ended = items.next().is_none();
    out.answer_line(after, items.next().is_none() && ended);
}

/// Reads `items` to their end and writes the values of `tell_end`, or the error.
pub fn tell_ends<T: Named, I: ExactSizeIterator<Item = T> + Drop>(
    out: &Out,
    before: &str,
    items: Result<I, Error<'_>>,
)
    requires { (items : _) → I.can_next items }
{
    match items {
        Ok(items) => tell_end(out, before, ", left ", " ", items),
        Err(error) => tell_error(out, error),
    }
}
