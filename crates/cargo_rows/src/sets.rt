//! Sets of ids.
ghost use Rattle.std.specs.Prelude.{IfOk, map};
ghost use Rattle.workspace_documents.specs.Views.{text_view};
ghost use Rattle.cargo_rows.specs.inner.Views.{HasTexts};

use std::alloc::{AllocError, Global};
use std::collections::BTreeSet;

/// The ids as a set.
pub(crate) fn set_of<'v>(alloc: Global, ids: &[&'v str]) -> Result<BTreeSet<&'v str>, AllocError>
    ensures { IfOk result (λ set. HasTexts set (map text_view ids.now)) }
{
    let mut set = BTreeSet::new(alloc);
    for id in ids {
        let _is_new = set.insert(*id)?;
    }
    Ok(set)
}
