//! A line and its kept fields.
ghost use Rattle.std.specs.Prelude.{◌≡◌, IfOk};

use guppy_packages::DependencyKind;
use std::alloc::AllocError;

/// The form of a line. It says which fields are kept, and stores the others.
#[derive(Clone, Copy)]
pub enum Form {
    /// A line that is no row. All its fields are kept.
    Malformed,
    /// A package. Its id is kept.
    Package {
        in_workspace: bool,
    },
    /// A feature. Its name and its items are kept.
    Feature,
    /// A dependency on every platform. Its name, its target and its listed features are kept.
    Dep {
        kind: DependencyKind,
        optional: bool,
        default_features: bool,
    },
    /// A dependency on some platforms. Its name, its target, the platforms and its listed features
    /// are kept.
    PlatformDep {
        kind: DependencyKind,
        optional: bool,
        default_features: bool,
    },
}

impl Form {
    ghost use Rattle.row_files.specs.inner.KeptFields.{is_malformed};

    /// Returns true if the line is no row.
    pub(crate) fn is_malformed(self) -> bool
        ensures { result ≡ is_malformed self }
    {
        matches!(self, Form::Malformed)
    }
}

/// A line that isn't skipped: its number, and the end of its kept fields in the list for all lines. They begin where those of the line
/// before it end.
#[derive(Clone, Copy)]
pub struct Line {
    pub(crate) number: usize,
    pub(crate) end: u32,
    pub(crate) form: Form,
}

/// The greatest number that fits in 32 bits.
const LAST: usize = 4294967295;

impl Line {
    /// Returns line `number`, whose kept fields end at `end`. Returns `AllocError` if `end` is over 4294967295.
    pub(crate) fn new(number: usize, end: usize, form: Form) -> Result<Line, AllocError>
        ensures { IfOk result (λ line. line ≡ record { number = number; end = end; form = form }) }
    {
        if end > LAST {
            return Err(AllocError);
        }
        Ok(Line {
            number,
            end: end as u32,
            form,
        })
    }
}
