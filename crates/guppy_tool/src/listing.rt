//! The lines of a set's features.
ghost use Rattle.std.specs.Prelude.{◌≡◌, ◌++◌, ◌∷◌, [], IfOk, OnOk};
ghost use Rattle.std.specs.String.{string_bytes};
ghost use Rattle.feature_labels.specs.Names.{id_of, id_text, label_of, label_text};
ghost use Rattle.feature_graph.specs.Names.{names_of_members};
ghost use Rattle.guppy_tool.specs.Answers.{listing};

use guppy_features::{FeatureId, FeatureLabel, FeatureSet};
use std::alloc::{AllocError, Global};

/// Appends the text of `label`.
fn push_label(text: &mut String, label: FeatureLabel<'_>) -> Result<(), AllocError>
    ensures { OnOk result (string_bytes text.new ≡ string_bytes text.old ++ label_text (label_of label.entry)) }
{
    match label {
        FeatureLabel::Base => text.push_str("[base]"),
        FeatureLabel::Named(name) => text.push_str(name),
        FeatureLabel::OptionalDependency(name) => {
            text.push_str("dep:")?;
            text.push_str(name)
        }
    }
}

/// Appends the line of one id, as `writeln!` does, but without a formatter: an answer may have hundreds of thousands of lines.
pub fn push_line(text: &mut String, id: FeatureId<'_>) -> Result<(), AllocError>
    ensures { OnOk result (string_bytes text.new ≡ string_bytes text.old ++ (id_text (id_of id.entry) ++ 10 ∷ [])) }
{
    text.push_str(id.package_id().repr())?;
    text.push_str("/")?;
    push_label(text, id.label())?;
    text.push_str("\n")
}

/// Returns a line for each member of `set`, in the order of the node numbers.
pub fn list(alloc: Global, set: &FeatureSet) -> Result<Vec<u8>, AllocError>
    ensures { IfOk result (λ text. text.items ≡ listing (names_of_members set.now.graph.tables set.now.members)) }
{
    let mut text = String::new(alloc);
    for id in set.ids_by_node() {
        push_line(&mut text, id)?;
    }
    Ok(text.into_bytes())
}
