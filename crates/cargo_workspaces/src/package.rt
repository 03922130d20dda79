//! The packages of a workspace. All texts are borrowed from the document.
ghost use Rattle.std.specs.Prelude.{◌≡◌, Some};
ghost use Rattle.std.specs.List.{list_any};
ghost use Rattle.std.specs.Str.{bytes_eq};
ghost use Rattle.cargo_workspaces.specs.Views.{texts};
ghost use Rattle.cargo_workspaces.specs.Workspaces as spec;

/// The builds of a package that a declaration is for.
#[derive(Clone, Copy, PartialEq, Eq, Debug)]
pub enum Kind {
    Normal,
    Build,
    Development,
}

/// A named feature and the items that it turns on.
#[derive(Drop)]
pub struct Feature<'v> {
    pub name: &'v str,
    pub items: Vec<&'v str>,
}

/// A dependency that a package declares.
#[derive(Drop)]
pub struct Declaration<'v> {
    /// The name that the package's features call the dependency by: its new name, else the name of the package that it declares.
    pub name: &'v str,
    pub kind: Kind,
    pub optional: bool,
    /// The platform spec; None means every platform.
    pub platform: Option<&'v str>,
    pub default_features: bool,
    /// The names of the features that the declaration lists.
    pub features: Vec<&'v str>,
    /// The number of the package that the declaration leads to; None if the document has no package for it.
    pub leads_to: Option<usize>,
}

/// A target of a package, as a library, a program or a build script.
#[derive(Drop)]
pub struct Target<'v> {
    /// Empty if the document doesn't contain it.
    pub name: &'v str,
    /// The words of its kind: `lib`, `proc-macro`, `bin`, `example`, `test`, `bench`, `custom-build` and others.
    pub kinds: Vec<&'v str>,
    /// The crate types; an example may be of the type `proc-macro`. Empty if the document doesn't contain them.
    pub crate_types: Vec<&'v str>,
    /// Whether its unit tests are built by default.
    pub test: bool,
    /// Whether its documentation tests are built by default.
    pub doctest: bool,
    /// The features without which the target isn't built.
    pub required_features: Vec<&'v str>,
}

/// A package of a document.
pub struct Package<'v> {
    pub id: &'v str,
    pub name: &'v str,
    pub version: &'v str,
    /// None for a package at a path.
    pub source: Option<&'v str>,
    /// The features, in the order of the bytes of their names.
    pub features: Vec<Feature<'v>>,
    /// The declarations, in the order of the document.
    pub declarations: Vec<Declaration<'v>>,
    /// The targets, in the order of the document.
    pub targets: Vec<Target<'v>>,
}

impl Drop for Package<'_> {
    // Written out, so that a crate above calls it. A derived drop is proved in each crate that drops a value, with those of all fields.
    fn drop(self) {
        let Package {
            id: _id,
            name: _name,
            version: _version,
            source: _source,
            features: _features,
            declarations: _declarations,
            targets: _targets,
        } = self;
    }
}

impl Declaration<'_> {
    ghost use Rattle.cargo_workspaces.specs.Views.{declaration_text};

    /// Returns whether the declaration leads to package `number`.
    pub fn leads_to_package(&self, number: usize) -> bool
        ensures { result ≡ spec.both_lead_to (Some number) (declaration_text self.now).leads_to }
    {
        match self.leads_to {
            Some(to) => number == to,
            None => false,
        }
    }
}

/// Returns whether targets of this kind are linked into the packages that depend on theirs.
fn is_library_kind(kind: &str) -> bool
    ensures { result ≡ spec.is_library_kind kind.now }
{
    matches!(
        kind,
        "lib" | "rlib" | "dylib" | "cdylib" | "staticlib" | "proc-macro"
    )
}

/// Returns whether `word` is one of `words`.
fn is_among(words: &[&str], word: &str) -> bool
    ensures { result ≡ list_any (bytes_eq word.now) (texts words.now) }
{
    for other in words {
        if word == *other {
            return true;
        }
    }
    false
}

impl Target<'_> {
    ghost use Rattle.cargo_workspaces.specs.Views.{target_text};

    /// Returns whether `kind` is one of the target's kinds.
    pub fn has_kind(&self, kind: &str) -> bool
        ensures { result ≡ spec.has_kind kind.now (target_text self.now) }
    {
        is_among(&self.kinds, kind)
    }

    /// Returns whether the target is a procedural macro: a library, or an example of that crate type.
    pub fn is_proc_macro(&self) -> bool
        ensures { result ≡ spec.is_macro_target (target_text self.now) }
    {
        self.has_kind("proc-macro") || is_among(&self.crate_types, "proc-macro")
    }

    /// Returns whether the target is a library, of which a procedural macro is one.
    pub fn is_library(&self) -> bool
        ensures { result ≡ spec.is_library (target_text self.now) }
    {
        for word in &self.kinds {
            if is_library_kind(word) {
                return true;
            }
        }
        false
    }
}

impl Package<'_> {
    ghost use Rattle.cargo_workspaces.specs.Views.{package_text};

    /// Returns whether a target of the package is a procedural macro.
    pub fn has_proc_macro(&self) -> bool
        ensures { result ≡ spec.has_macro_target (package_text self.now) }
    {
        for target in &self.targets {
            if target.is_proc_macro() {
                return true;
            }
        }
        false
    }

    /// Returns whether the package is a procedural macro for those that depend on it.
    pub fn is_proc_macro(&self) -> bool
        ensures { result ≡ spec.is_proc_macro (package_text self.now) }
    {
        for target in &self.targets {
            if target.has_kind("proc-macro") {
                return true;
            }
        }
        false
    }

    /// Returns whether the package has a build script.
    pub fn has_script(&self) -> bool
        ensures { result ≡ spec.has_script (package_text self.now) }
    {
        for target in &self.targets {
            if target.has_kind("custom-build") {
                return true;
            }
        }
        false
    }
}
