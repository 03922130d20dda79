//! Edits of one declaration, or of an entry that declarations inherit.

/// What an edit takes out of a declaration.
#[derive(Clone, Copy)]
pub enum Without<'v> {
    /// Its default features.
    Defaults,
    /// The feature with this name, which it lists.
    Feature(&'v str),
}

/// What an edit changes.
#[derive(Clone, Copy)]
pub enum EditPlace<'v> {
    /// A declaration of a package: the number of the package, and that of the declaration among those of the package, from 0.
    Declaration { package: usize, declaration: usize },
    /// The entry of the table `[workspace.dependencies]` with this name.
    TableEntry(&'v str),
}

/// An edit of one declaration of a package, or of an entry that declarations inherit.
#[derive(Clone, Copy)]
pub struct Edit<'v> {
    pub place: EditPlace<'v>,
    pub without: Without<'v>,
}
