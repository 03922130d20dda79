//! A workspace with all packages that it depends on.
ghost use Rattle.std.specs.Prelude.{◌≡◌, ◌<◌, Some, length, map, slice_get};
ghost use Rattle.cargo_workspaces.specs.Views.{package_text};
ghost use Rattle.cargo_workspaces.specs.Workspaces.{IsWorkspace, IsWorkspace-prop};

use crate::package::Package;

/// A workspace with all packages that it depends on. Packages are numbered from 0, in the order of their ids.
pub struct Workspace<'v> {
    packages: Vec<Package<'v>>,
    members: Vec<usize>,
    default_members: Vec<usize>,
    root: Option<usize>,
    ghost valid: { IsWorkspace (record { packages = map package_text packages.items; members = members.items; default_members = default_members.items; root = root }) } by { IsWorkspace-prop (record { packages = map package_text packages.items; members = members.items; default_members = default_members.items; root = root }) },
}

impl Drop for Workspace<'_> {
    // Written out, so that a crate above calls it. A derived drop is proved in each crate that drops a value, with those of all fields.
    fn drop(self) {
        let Workspace {
            packages: _packages,
            members: _members,
            default_members: _default_members,
            root: _root,
        } = self;
    }
}

impl<'v> Workspace<'v> {
    ghost use Rattle.cargo_workspaces.specs.WorkspaceView.{workspace_text};

    /// Returns the workspace of these packages, which are in the order of their ids, with the numbers of its members, of its default
    /// members and of its root package.
    pub fn new(
        packages: Vec<Package<'v>>,
        members: Vec<usize>,
        default_members: Vec<usize>,
        root: Option<usize>,
    ) -> Workspace<'v>
        requires { IsWorkspace (record { packages = map package_text packages.items; members = members.items; default_members = default_members.items; root = root }) }
        ensures { workspace_text result ≡ record { packages = map package_text packages.entry.items; members = members.items; default_members = default_members.items; root = root } }
    {
        Workspace {
            packages,
            members,
            default_members,
            root,
        }
    }

    /// States the rules that every workspace satisfies.
    pub fn facts(&self)
        ensures { IsWorkspace (workspace_text self.now) }
    {
        let _ = &self.packages;
    }

    /// Returns the packages, in the order of their numbers.
    pub fn packages(&self) -> &[Package<'v>]
        ensures { map package_text result.now ≡ (workspace_text self.now).packages }
    {
        self.packages.as_slice()
    }

    /// Returns the number of packages.
    pub fn package_count(&self) -> usize
        ensures { result ≡ length (workspace_text self.now).packages }
    {
        self.packages.len()
    }

    /// Returns package `ix`.
    pub fn package(&self, ix: usize) -> &Package<'v>
        requires { ix < length (workspace_text self.now).packages }
        ensures { slice_get (workspace_text self.now).packages ix ≡ Some (package_text result.now) }
    {
        &self.packages[ix]
    }

    /// Returns the numbers of the workspace's members, in the order of the document.
    pub fn members(&self) -> &[usize]
        ensures { result.now ≡ (workspace_text self.now).members }
    {
        self.members.as_slice()
    }

    /// Returns the numbers of the members that are selected if no package is named, in the order of the document.
    pub fn default_members(&self) -> &[usize]
        ensures { result.now ≡ (workspace_text self.now).default_members }
    {
        self.default_members.as_slice()
    }

    /// Returns the number of the package in whose folder the document was made, if it is one.
    pub fn root(&self) -> Option<usize>
        ensures { result ≡ (workspace_text self.now).root }
    {
        self.root
    }
}
