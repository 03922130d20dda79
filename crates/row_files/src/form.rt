//! The form of a line, from its fields.
ghost use Rattle.std.specs.Prelude.{◌≡◌, ◌∷◌, codes, is_none};
ghost use Rattle.guppy_packages.specs.Rows.{texts};
ghost use Rattle.row_files.specs.RowOfLine.{choice, kind_of, package_row, feature_row, dep_row, row_of};
ghost use Rattle.row_files.specs.Forms.{fields_of};
ghost use Rattle.row_files.specs.inner.KeptFields.{kept_of, form_row, is_malformed};

use crate::line::Form;
use guppy_packages::DependencyKind;

fn place(word: &str) -> Option<bool>
    ensures { result ≡ choice (codes "workspace") (codes "external") word.now }
{
    match word {
        "external" => Some(false),
        "workspace" => Some(true),
        _ => None,
    }
}

fn need(word: &str) -> Option<bool>
    ensures { result ≡ choice (codes "optional") (codes "required") word.now }
{
    match word {
        "required" => Some(false),
        "optional" => Some(true),
        _ => None,
    }
}

fn defaults(word: &str) -> Option<bool>
    ensures { result ≡ choice (codes "default") (codes "nodefault") word.now }
{
    match word {
        "default" => Some(true),
        "nodefault" => Some(false),
        _ => None,
    }
}

fn kind(word: &str) -> Option<DependencyKind>
    ensures { result ≡ kind_of word.now }
{
    match word {
        "normal" => Some(DependencyKind::Normal),
        "build" => Some(DependencyKind::Build),
        "dev" => Some(DependencyKind::Development),
        _ => None,
    }
}

/// Returns the form of a line with these fields after the word `package`.
fn package(fields: &[&str]) -> Form
    ensures fields { fields_of result (kept_of result (codes "package" ∷ texts fields.now)) ≡ codes "package" ∷ texts fields.now }
    ensures row { form_row result (kept_of result (codes "package" ∷ texts fields.now)) ≡ package_row (texts fields.now) }
    ensures known { is_none (package_row (texts fields.now)) ≡ is_malformed result }
{
    let [_, at] = fields else {
        return Form::Malformed;
    };
    match place(at) {
        Some(in_workspace) => Form::Package { in_workspace },
        None => Form::Malformed,
    }
}

/// Returns the form of a line with these fields after the word `feature`.
fn feature(fields: &[&str]) -> Form
    ensures fields { fields_of result (kept_of result (codes "feature" ∷ texts fields.now)) ≡ codes "feature" ∷ texts fields.now }
    ensures row { form_row result (kept_of result (codes "feature" ∷ texts fields.now)) ≡ feature_row (texts fields.now) }
    ensures known { is_none (feature_row (texts fields.now)) ≡ is_malformed result }
{
    if fields.is_empty() {
        Form::Malformed
    } else {
        Form::Feature
    }
}

/// Returns the form of a line with these fields after the word `dep`.
fn dep(fields: &[&str]) -> Form
    ensures fields { fields_of result (kept_of result (codes "dep" ∷ texts fields.now)) ≡ codes "dep" ∷ texts fields.now }
    ensures row { form_row result (kept_of result (codes "dep" ∷ texts fields.now)) ≡ dep_row (texts fields.now) }
    ensures known { is_none (dep_row (texts fields.now)) ≡ is_malformed result }
{
    let [_, _, of_kind, needed, platform, with_defaults, ..] = fields else {
        return Form::Malformed;
    };
    match (kind(of_kind), need(needed), defaults(with_defaults)) {
        (Some(kind), Some(optional), Some(default_features)) => {
            if *platform == "*" {
                Form::Dep {
                    kind,
                    optional,
                    default_features,
                }
            } else {
                Form::PlatformDep {
                    kind,
                    optional,
                    default_features,
                }
            }
        }
        _ => Form::Malformed,
    }
}

/// Returns the form of a line with these fields.
pub(crate) fn form_of(fields: &[&str]) -> Form
    ensures fields { fields_of result (kept_of result (texts fields.now)) ≡ texts fields.now }
    ensures row { form_row result (kept_of result (texts fields.now)) ≡ row_of (texts fields.now) }
    ensures known { is_none (row_of (texts fields.now)) ≡ is_malformed result }
{
    let [word, rest @ ..] = fields else {
        return Form::Malformed;
    };
    match *word {
        "package" => package(rest),
        "feature" => feature(rest),
        "dep" => dep(rest),
        _ => Form::Malformed,
    }
}
