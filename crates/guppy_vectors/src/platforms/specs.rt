//! Calls on one platform spec.
use crate::platforms::Start;
use crate::shared::Failure;
use platform_specs::{PlatformSpec, SpecFault};

/// Writes whether `spec` holds, and `spec`.
fn tell(start: Start<'_>, spec: &PlatformSpec) {
    start.out.answer("", spec.holds(start.target));
    start.out.part(" ");
    start.out.shown(spec);
    start.out.line("");
}

/// Writes whether the spec that `text` spells holds, and the spec; or where `text` is malformed.
pub fn spec(start: Start<'_>, text: &str) -> Result<(), Failure> {
    match PlatformSpec::parse(start.alloc, text) {
        Ok(spec) => {
            tell(start, &spec);
            Ok(())
        }
        Err(SpecFault::Malformed { at }) => {
            start.out.number("malformed at ", at);
            start.out.line("");
            Ok(())
        }
        Err(SpecFault::Memory) => Err(Failure::Memory),
    }
}
