//! Lines for manifests, and lists of features in text.
ghost use Rattle.std.specs.Prelude.{◌≡◌, ◌++◌, IfOk, OnOk, flat_map, string_bytes};
ghost use Rattle.cargo_workspaces.specs.Views.{package_text, texts};
ghost use Rattle.feats_duplicate_lines.specs.Lines as spec;
ghost use Rattle.feats_lines.specs.Lines.{spaced};

use cargo_workspaces::Package;
use std::alloc::{AllocError, Global};

/// Appends `feature` in quotes.
fn push_quoted(text: &mut String, feature: &str) -> Result<(), AllocError>
    ensures { OnOk result (string_bytes text.new ≡ string_bytes text.old ++ spec.quoted feature.now) }
{
    text.push_str("\"")?;
    text.push_str(feature)?;
    text.push_str("\"")
}

/// Appends each of `features` in quotes, after a comma.
fn push_more(text: &mut String, features: &[&str]) -> Result<(), AllocError>
    ensures { OnOk result (string_bytes text.new ≡ string_bytes text.old ++ flat_map spec.after_comma (texts features.now)) }
{
    for feature in features {
        text.push_str(", ")?;
        push_quoted(text, feature)?;
    }
    Ok(())
}

/// Appends `features` in quotes, with commas between them.
fn push_list(text: &mut String, features: &[&str]) -> Result<(), AllocError>
    ensures { OnOk result (string_bytes text.new ≡ string_bytes text.old ++ spec.quoted_list (texts features.now)) }
{
    match features {
        [] => Ok(()),
        [first, more @ ..] => {
            push_quoted(text, first)?;
            push_more(text, more)
        }
    }
}

/// Returns the line of a manifest that asks for exactly the version of `package`, with the features `features`.
pub(crate) fn manifest_line(
    alloc: Global,
    package: &Package<'_>,
    features: &[&str],
) -> Result<String, AllocError>
    ensures { IfOk result (λ text. string_bytes text ≡ spec.manifest_line (package_text «package».now) (texts features.now)) }
{
    let mut text = String::from_str(alloc, package.name)?;
    text.push_str(" = { version = \"=")?;
    text.push_str(package.version)?;
    text.push_str("\", default-features = false, features = [")?;
    push_list(&mut text, features)?;
    text.push_str("] }")?;
    Ok(text)
}

/// Returns the comment that says whether members agree.
fn agreement(agrees: bool) -> &'static str
    ensures { result.now ≡ spec.agreement agrees }
{
    if agrees {
        " # agree"
    } else {
        " # still differ"
    }
}

/// Returns the line of a manifest for `package`, with the comment whether members agree with it.
pub(crate) fn joined_detail(
    alloc: Global,
    package: &Package<'_>,
    features: &[&str],
    agrees: bool,
) -> Result<String, AllocError>
    ensures { IfOk result (λ text. string_bytes text ≡ spec.joined_detail (package_text «package».now) (texts features.now) agrees) }
{
    let mut text = manifest_line(alloc, package, features)?;
    text.push_str(agreement(agrees))?;
    Ok(text)
}

/// Appends a space and the text for each of `features`.
fn push_spaced(text: &mut String, features: &[&str]) -> Result<(), AllocError>
    ensures { OnOk result (string_bytes text.new ≡ string_bytes text.old ++ flat_map spaced (texts features.now)) }
{
    for feature in features {
        text.push_str(" ")?;
        text.push_str(feature)?;
    }
    Ok(())
}

/// Appends `features` after a colon, or that there are none.
pub(crate) fn push_features(text: &mut String, features: &[&str]) -> Result<(), AllocError>
    ensures { OnOk result (string_bytes text.new ≡ string_bytes text.old ++ spec.feature_list (texts features.now)) }
{
    match features {
        [] => text.push_str(" without features"),
        [_, ..] => {
            text.push_str(":")?;
            push_spaced(text, features)
        }
    }
}
