//! The packages of a summary.

/// Where a package stands in the build.
#[derive(Clone, Copy, PartialEq, Eq, Debug)]
pub enum Status {
    /// The package is selected.
    Initial,
    /// The package is another member of the workspace.
    Workspace,
    /// A member of the workspace depends on the package.
    Direct,
    /// Only packages that aren't members depend on the package.
    Transitive,
}

/// Where a package is from. Paths are bytes.
#[derive(Drop)]
pub enum SummarySource<'a> {
    /// A member of the workspace, at this path from the workspace's folder.
    Workspace(Vec<u8>),
    /// At this path from the workspace's folder.
    Path(Vec<u8>),
    /// The registry crates.io.
    CratesIo,
    /// Another source, as Cargo spells it.
    External(&'a str),
}

/// A package of a summary, as it is built on one side.
pub struct SummaryPackage<'a> {
    pub name: &'a str,
    pub version: &'a str,
    pub source: SummarySource<'a>,
    pub status: Status,
    /// The names of the features that are on.
    pub features: Vec<&'a str>,
    /// The names of the optional dependencies that are on.
    pub optional_dependencies: Vec<&'a str>,
}

impl Drop for SummaryPackage<'_> {
    // Written out, so that a crate above calls it. A derived drop is proved in each crate that drops a value, with those of all fields.
    fn drop(self) {
        let SummaryPackage {
            name: _name,
            version: _version,
            source: _source,
            status: _status,
            features: _features,
            optional_dependencies: _optional_dependencies,
        } = self;
    }
}
