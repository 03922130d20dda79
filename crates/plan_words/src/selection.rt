//! What a command line says.

/// The packages that a command line selects.
#[derive(Clone, Copy)]
pub enum PackageChoice<'s> {
    /// The default members of the workspace.
    Default,
    /// All members of the workspace.
    Workspace,
    /// The packages that these words name, each by `NAME`, `NAME@VERSION`, `NAME:VERSION` or an id, and the members whose names fit
    /// these words.
    Named(&'s [&'s str]),
    /// All members of the workspace, except those that these words name or whose names fit these words.
    AllBut(&'s [&'s str]),
}

/// The packages and features that a command line asks for.
#[derive(Clone, Copy)]
pub struct Selection<'s> {
    pub packages: PackageChoice<'s>,
    /// The feature words, each `FEATURE`, `DEPENDENCY/FEATURE` or `DEPENDENCY?/FEATURE`.
    pub features: &'s [&'s str],
    pub all_features: bool,
    pub no_default_features: bool,
    /// Whether the resolver tells the sides apart: 2 and 3 do.
    pub split: bool,
}
