//! The meaning of a feature item's text.
ghost use Rattle.std.specs.Prelude.{◌≡◌, position};
ghost use Rattle.std.specs.Option.{option_map};
ghost use Rattle.guppy_packages.specs.Items.{is_slash, item_of, meaning};
ghost use Rattle.guppy_packages.specs.inner.Slashes.{parts_of};

/// An item of a named feature.
#[derive(Clone, Copy, PartialEq, Eq, Debug)]
pub enum NamedFeatureDep<'a> {
    /// A named feature of the same package.
    NamedFeature(&'a str),
    /// An optional dependency of the same package.
    OptionalDependency(&'a str),
    /// The feature `feature` of the dependency `dep_name`. A weak item doesn't request the dependency itself.
    DependencyNamedFeature {
        dep_name: &'a str,
        feature: &'a str,
        weak: bool,
    },
}

/// Returns the place of the first `/`.
#[inline]
fn slash_at(bytes: &[u8]) -> Option<usize>
    ensures { result ≡ position is_slash bytes.now }
{
    bytes.iter().position(|byte| *byte == b'/')
}

/// Returns the parts of `input` before and after its first `/`.
#[inline]
fn cut_at_slash(input: &str) -> Option<(&str, &str)>
    ensures { option_map (λ parts. (parts.0.now, parts.1.now)) result ≡ parts_of input.now }
{
    let at = slash_at(input.as_bytes())?;
    Some((&input[..at], &input[at + 1..]))
}

impl<'a> NamedFeatureDep<'a> {
    /// Returns the meaning of `input`, an item's text. It is cut at its first `/`; a `?` at the end of the left part makes it
    /// weak. Without a `/`, the prefix `dep:` means an optional dependency, and any other text a named feature.
    pub fn from_cargo_string(input: &'a str) -> Self
        ensures { meaning result ≡ item_of input.now }
    {
        if let Some((left, feature)) = cut_at_slash(input) {
            return match left.strip_suffix('?') {
                Some(dep_name) => NamedFeatureDep::DependencyNamedFeature {
                    dep_name,
                    feature,
                    weak: true,
                },
                None => NamedFeatureDep::DependencyNamedFeature {
                    dep_name: left,
                    feature,
                    weak: false,
                },
            };
        }
        match input.strip_prefix("dep:") {
            Some(name) => NamedFeatureDep::OptionalDependency(name),
            None => NamedFeatureDep::NamedFeature(input),
        }
    }
}
