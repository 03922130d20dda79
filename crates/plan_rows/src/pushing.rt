//! Appends rows.
ghost use Rattle.std.specs.Prelude.{◌≡◌, ◌++◌, ◌∷◌, [], ◌<◌, false, OnOk, IsTrue, length, map, option_map};
ghost use Rattle.std.specs.Fmt.{decimal};
ghost use Rattle.std.specs.List.{list_all};
ghost use Rattle.guppy_packages.specs.Rows.{row_text, a_package};
ghost use Rattle.cargo_workspaces.specs.Views.{declaration_text, feature_text};
ghost use Rattle.cargo_workspaces.specs.Workspaces.{is_within};
ghost use Rattle.plan_rows.specs.Steps.{command_list, dependency_as};
ghost use Rattle.plan_rows.specs.Tables.{dependency_row, feature_row};
ghost use Rattle.plan_rows.specs.inner.Leads.{dependencies_at};

use crate::ids::Ids;
use cargo_workspaces::{Declaration, Feature};
use guppy_packages::{DependencyKind, Row};
use std::alloc::AllocError;

/// Appends the row of the package of entry `number`.
pub(crate) fn push_package<'n>(
    rows: &mut Vec<Row<'n>>,
    ids: &'n Ids,
    number: usize,
) -> Result<(), AllocError>
    requires { number < ids.now }
    ensures { OnOk result (map row_text rows.new.items ≡ map row_text rows.old.items ++ a_package (decimal number) false ∷ []) }
{
    rows.push(Row::Package {
        id: ids.text(number),
        in_workspace: false,
    })?;
    Ok(())
}

/// Appends the row of a feature.
fn push_feature<'n>(rows: &mut Vec<Row<'n>>, feature: &'n Feature<'_>) -> Result<(), AllocError>
    ensures { OnOk result (map row_text rows.new.items ≡ map row_text rows.old.items ++ feature_row (feature_text feature.now) ∷ []) }
{
    rows.push(Row::Feature {
        name: feature.name,
        items: feature.items.as_slice(),
    })?;
    Ok(())
}

/// Appends the rows of features.
pub(crate) fn push_features<'n>(
    rows: &mut Vec<Row<'n>>,
    features: &'n [Feature<'_>],
) -> Result<(), AllocError>
    ensures { OnOk result (map row_text rows.new.items ≡ map row_text rows.old.items ++ map feature_row (map feature_text features.now)) }
{
    for feature in features {
        push_feature(rows, feature)?;
    }
    Ok(())
}

/// Appends the row of the command feature, if there is one.
pub(crate) fn push_command<'n>(
    rows: &mut Vec<Row<'n>>,
    command: &'n Option<Feature<'_>>,
) -> Result<(), AllocError>
    ensures { OnOk result (map row_text rows.new.items ≡ map row_text rows.old.items ++ map feature_row (command_list (option_map feature_text command.now))) }
{
    match command {
        Some(feature) => push_feature(rows, feature),
        None => Ok(()),
    }
}

/// Appends the row of the dependency by which `declaration` leads to entry `to`; if `plain`, it is required and asks for no
/// features.
fn push_dependency<'n>(
    rows: &mut Vec<Row<'n>>,
    ids: &'n Ids,
    declaration: &'n Declaration<'_>,
    to: usize,
    plain: bool,
) -> Result<(), AllocError>
    requires { to < ids.now }
    ensures { OnOk result (map row_text rows.new.items ≡ map row_text rows.old.items ++ dependency_row (dependency_as plain (declaration_text declaration.now) to) ∷ []) }
{
    let row = if plain {
        Row::Dep {
            name: declaration.name,
            target: ids.text(to),
            kind: DependencyKind::Normal,
            optional: false,
            platform: None,
            default_features: false,
            features: &[],
        }
    } else {
        Row::Dep {
            name: declaration.name,
            target: ids.text(to),
            kind: DependencyKind::Normal,
            optional: declaration.optional,
            platform: None,
            default_features: declaration.default_features,
            features: declaration.features.as_slice(),
        }
    };
    rows.push(row)?;
    Ok(())
}

/// Appends the row of the dependency by which `declaration` leads to an entry, if it does.
pub(crate) fn push_lead<'n>(
    rows: &mut Vec<Row<'n>>,
    ids: &'n Ids,
    declaration: &'n Declaration<'_>,
    lead: Option<usize>,
    plain: bool,
) -> Result<(), AllocError>
    requires { IsTrue (is_within ids.now lead) }
    ensures { OnOk result (map row_text rows.new.items ≡ map row_text rows.old.items ++ map dependency_row (dependencies_at plain (declaration_text declaration.now ∷ []) (lead ∷ []))) }
{
    match lead {
        Some(to) => push_dependency(rows, ids, declaration, to, plain),
        None => Ok(()),
    }
}

/// Appends the rows of the dependencies by which declarations lead to entries: `leads` has an item for each of `declarations`.
pub(crate) fn push_dependencies<'n>(
    rows: &mut Vec<Row<'n>>,
    ids: &'n Ids,
    declarations: &'n [Declaration<'_>],
    leads: &[Option<usize>],
    plain: bool,
) -> Result<(), AllocError>
    requires all { length leads.now ≡ length declarations.now }
    requires within { IsTrue (list_all (is_within ids.now) leads.now) }
    ensures { OnOk result (map row_text rows.new.items ≡ map row_text rows.old.items ++ map dependency_row (dependencies_at plain (map declaration_text declarations.now) leads.now)) }
{
    for (ix, declaration) in declarations.iter().enumerate() {
        push_lead(rows, ids, declaration, leads[ix], plain)?;
    }
    Ok(())
}
