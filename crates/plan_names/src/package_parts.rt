//! The parts of a package that a name means.
ghost use Rattle.std.specs.Prelude.{◌≡◌, ◌++◌, ◌&&◌, if◌then◌else◌, IfOk, OnOk, map};
ghost use Rattle.std.specs.List.{filter, list_any};
ghost use Rattle.std.specs.Str.{bytes_eq};
ghost use Rattle.cargo_workspaces.specs.Views.{package_text, texts};
ghost use Rattle.plan_names.specs.Names as spec;
ghost use Rattle.plan_words.specs.Patterns.{fits};
ghost use Rattle.plan_names.specs.Views.{named_text};
ghost use Rattle.plan_names.specs.inner.News.{with_new};

use crate::named::{Named, Part};
use cargo_workspaces::{Declaration, Package};
use plan_words::fits;
use std::alloc::{AllocError, Global};

/// Appends the features of `package`, which has the number `ix`, that fit `pattern`.
fn push_features<'w>(
    named: &mut Vec<Named<'w>>,
    ix: usize,
    package: &'w Package<'_>,
    pattern: &str,
) -> Result<(), AllocError>
    ensures { OnOk result (map named_text named.new.items ≡ map named_text named.old.items ++ map (spec.of_package ix) (map spec.feature (filter (fits pattern.now) (spec.feature_names (package_text «package».now))))) }
{
    for feature in &package.features {
        if fits(pattern, feature.name) {
            named.push(Named {
                package: ix,
                part: Part::Feature(feature.name),
            })?;
        }
    }
    Ok(())
}

/// Returns whether `name` is one of `names`.
fn is_among(names: &[&str], name: &str) -> bool
    ensures { result ≡ list_any (bytes_eq name.now) (texts names.now) }
{
    for known in names {
        if name == *known {
            return true;
        }
    }
    false
}

/// Appends `name`, if it isn't one of `names`.
fn push_new<'w>(names: &mut Vec<&'w str>, name: &'w str) -> Result<(), AllocError>
    ensures { OnOk result (texts names.new.items ≡ with_new (texts names.old.items) name.now) }
{
    if !is_among(names, name) {
        names.push(name)?;
    }
    Ok(())
}

/// Appends the name of `declaration`, if that is optional, and its name fits `pattern` and is new.
fn push_optional<'w>(
    names: &mut Vec<&'w str>,
    declaration: &'w Declaration<'_>,
    pattern: &str,
) -> Result<(), AllocError>
    ensures { OnOk result (texts names.new.items ≡ (if declaration.now.optional && fits pattern.now declaration.now.name.now then with_new (texts names.old.items) declaration.now.name.now else texts names.old.items)) }
{
    if declaration.optional && fits(pattern, declaration.name) {
        push_new(names, declaration.name)?;
    }
    Ok(())
}

/// Returns the names of the optional dependencies of `package` that fit `pattern`, each once.
fn optional_names<'w>(
    alloc: Global,
    package: &'w Package<'_>,
    pattern: &str,
) -> Result<Vec<&'w str>, AllocError>
    ensures { IfOk result (λ names. texts names.items ≡ spec.each_once (filter (fits pattern.now) (spec.optional_names (package_text «package».now)))) }
{
    let mut names = Vec::new(alloc);
    for declaration in &package.declarations {
        push_optional(&mut names, declaration, pattern)?;
    }
    Ok(names)
}

/// Appends the optional dependencies `names` of the package with the number `ix`.
fn push_dependencies<'w>(
    named: &mut Vec<Named<'w>>,
    ix: usize,
    names: &[&'w str],
) -> Result<(), AllocError>
    ensures { OnOk result (map named_text named.new.items ≡ map named_text named.old.items ++ map (spec.of_package ix) (map spec.dependency (texts names.now))) }
{
    for name in names {
        named.push(Named {
            package: ix,
            part: Part::Dependency(*name),
        })?;
    }
    Ok(())
}

/// Appends the parts of `package`, which has the number `ix`, that `name` means.
pub(crate) fn push_parts<'w>(
    alloc: Global,
    named: &mut Vec<Named<'w>>,
    ix: usize,
    package: &'w Package<'_>,
    name: &str,
) -> Result<(), AllocError>
    ensures { OnOk result (map named_text named.new.items ≡ map named_text named.old.items ++ map (spec.of_package ix) (spec.parts_called name.now (package_text «package».now))) }
{
    match name.strip_prefix("dep:") {
        Some(pattern) => {
            let names = optional_names(alloc, package, pattern)?;
            push_dependencies(named, ix, &names)
        }
        None => push_features(named, ix, package, name),
    }
}
