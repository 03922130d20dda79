//! Statuses, declarations and warnings as text.
use crate::shared::out::Out;
use feature_core::FeatureGraphWarning;
use feature_labels::LinkDeclarations;
use guppy_packages::PlatformStatus;

/// Writes `before`, and then `status`: `never` or `always`, as these are given, or the specs with `|` between them.
pub fn tell_status(out: &Out, before: &str, never: &str, always: &str, status: PlatformStatus<'_>) {
    out.part(before);
    match status {
        PlatformStatus::Never => out.part(never),
        PlatformStatus::Always => out.part(always),
        PlatformStatus::PlatformDependent(specs) => {
            let mut between = "";
            for spec in specs {
                out.text(between, spec.text());
                between = "|";
            }
        }
    }
}

/// Returns the name of `declarations`.
pub fn name_of(declarations: LinkDeclarations) -> &'static str {
    match declarations {
        LinkDeclarations::Unsplit => "unsplit",
        LinkDeclarations::Required => "required",
        LinkDeclarations::Optional => "optional",
    }
}

/// Writes `warning`, without the end of the line.
pub fn tell_warning(out: &Out, warning: &FeatureGraphWarning) {
    let (word, package_id, feature_name) = match warning {
        FeatureGraphWarning::MissingFeature {
            package_id,
            feature_name,
        } => ("missing ", package_id, feature_name),
        FeatureGraphWarning::SelfLoop {
            package_id,
            feature_name,
        } => ("self-loop ", package_id, feature_name),
    };
    out.text(word, package_id.repr());
    out.text(" ", feature_name.as_str());
}
