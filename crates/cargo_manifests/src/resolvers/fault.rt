//! The faults of a manifest.

/// A key of a manifest on which the resolver depends.
#[derive(Clone, Copy, PartialEq, Eq, Debug)]
pub enum ManifestKey {
    WorkspaceResolver,
    PackageResolver,
    PackageEdition,
    WorkspaceEdition,
}

impl ManifestKey {
    ghost use Rattle.std.specs.Prelude.{◌≡◌};
    ghost use Rattle.cargo_manifests.specs.resolvers.Resolvers.{key_text};

    /// Returns the key with its tables, as `package.edition`.
    pub fn as_str(self) -> &'static str
        ensures { result.now ≡ key_text self }
    {
        match self {
            ManifestKey::WorkspaceResolver => "workspace.resolver",
            ManifestKey::PackageResolver => "package.resolver",
            ManifestKey::PackageEdition => "package.edition",
            ManifestKey::WorkspaceEdition => "workspace.package.edition",
        }
    }
}

/// Why a manifest chooses no resolver.
#[derive(Clone, Copy, PartialEq, Eq, Debug)]
pub enum KeyFault {
    /// The value of the key isn't one that Cargo knows.
    Unknown(ManifestKey),
    /// The manifest inherits the value of the key, and has none.
    Missing(ManifestKey),
}

/// Why no resolver is found in the bytes of a manifest.
#[derive(Clone, Copy, PartialEq, Eq, Debug)]
pub enum ManifestFault {
    /// The bytes aren't UTF-8.
    NotText,
    /// The text isn't a TOML document.
    NotToml,
    /// A key of the document is at fault.
    Key(KeyFault),
    /// An allocation failed.
    Memory,
}
