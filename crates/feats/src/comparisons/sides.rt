//! The sides of a comparison.
ghost use Rattle.std.specs.Prelude.{◌≡◌};
ghost use Rattle.feats.specs.comparisons.SideView.{inputs_of, side_text};
ghost use Rattle.feats.specs.comparisons.Sides.{side};

use feats_plans::PlanFiles;
use feats_words::CommandArguments;

/// A side of a comparison: what its build is made from.
#[derive(Clone, Copy)]
pub struct Side<'s, 'a, 'f> {
    pub arguments: &'s CommandArguments<'a>,
    pub files: &'s PlanFiles<'f>,
    /// The bytes of the document.
    pub document: &'s [u8],
}

/// What the build of a side is made from, besides its document.
#[derive(Clone, Copy)]
pub struct SideInputs<'s, 'a, 'f> {
    pub arguments: &'s CommandArguments<'a>,
    pub files: &'s PlanFiles<'f>,
}

impl<'s, 'a, 'f> SideInputs<'s, 'a, 'f> {
    /// Returns the side with the bytes of its document.
    pub(crate) fn with_document(self, document: &'s [u8]) -> Side<'s, 'a, 'f>
        ensures { side_text result ≡ side (inputs_of self.entry) document.now }
    {
        Side {
            arguments: self.arguments,
            files: self.files,
            document,
        }
    }
}
