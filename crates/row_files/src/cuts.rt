//! Lines that are skipped.
ghost use Rattle.std.specs.Prelude.{◌≡◌};
ghost use Rattle.guppy_packages.specs.Rows.{texts};
ghost use Rattle.row_files.specs.inner.CutLines.{skips_fields};

/// Returns true if a line with these fields is empty or a comment.
pub fn skips(fields: &[&str]) -> bool
    ensures { result ≡ skips_fields (texts fields.now) }
{
    let [first, others @ ..] = fields else {
        return true;
    };
    let bytes = first.as_bytes();
    if bytes.is_empty() {
        others.is_empty()
    } else {
        bytes[0] == b'#'
    }
}
