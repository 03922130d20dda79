//! The fields of a line that are kept for its row.
ghost use Rattle.std.specs.Prelude.{◌≡◌, ◌++◌, length, take, OnOk};
ghost use Rattle.guppy_packages.specs.Rows.{texts};
ghost use Rattle.row_files.specs.inner.KeptFields.{dep_kept, kept_of, platform_dep_kept};

use crate::line::Form;
use std::alloc::AllocError;

/// Appends the kept fields of a dependency on every platform. An allocation failure is the only
/// error.
fn keep_dep<'t>(kept: &mut Vec<&'t str>, fields: &[&'t str]) -> Result<(), AllocError>
    ensures added { OnOk result (texts kept.new.items ≡ texts kept.old.items ++ dep_kept (texts fields.now)) }
    ensures grows { take (length kept.old.items) kept.new.items ≡ kept.old.items }
{
    let [_, name, target, _, _, _, _, features @ ..] = fields else {
        return Ok(());
    };
    kept.push(*name)?;
    kept.push(*target)?;
    if features.is_empty() {
        return Ok(());
    }
    kept.extend_from_slice(features)
}

/// Appends the kept fields of a dependency on some platforms. An allocation failure is the only
/// error.
fn keep_platform_dep<'t>(kept: &mut Vec<&'t str>, fields: &[&'t str]) -> Result<(), AllocError>
    ensures added { OnOk result (texts kept.new.items ≡ texts kept.old.items ++ platform_dep_kept (texts fields.now)) }
    ensures grows { take (length kept.old.items) kept.new.items ≡ kept.old.items }
{
    let [_, name, target, _, _, platform, _, features @ ..] = fields else {
        return Ok(());
    };
    kept.push(*name)?;
    kept.push(*target)?;
    kept.push(*platform)?;
    if features.is_empty() {
        return Ok(());
    }
    kept.extend_from_slice(features)
}

/// Appends the kept fields of a line of this form. An allocation failure is the only error.
pub(crate) fn keep<'t>(
    kept: &mut Vec<&'t str>,
    form: Form,
    fields: &[&'t str],
) -> Result<(), AllocError>
    ensures added { OnOk result (texts kept.new.items ≡ texts kept.old.items ++ kept_of form (texts fields.now)) }
    ensures grows { take (length kept.old.items) kept.new.items ≡ kept.old.items }
{
    match form {
        Form::Malformed => kept.extend_from_slice(fields),
        Form::Package { .. } => match fields {
            [_, id, _] => Ok(kept.push(*id)?),
            _ => Ok(()),
        },
        Form::Feature => match fields {
            [_, others @ ..] => kept.extend_from_slice(others),
            [] => Ok(()),
        },
        Form::Dep { .. } => keep_dep(kept, fields),
        Form::PlatformDep { .. } => keep_platform_dep(kept, fields),
    }
}
