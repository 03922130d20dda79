//! Maps that count texts.
ghost use Rattle.std.specs.Prelude.{◌≡◌, ◌++◌, ◌∷◌, [], List, OnOk};
ghost use Rattle.std.specs.BTreeMap.{get_by};
ghost use Rattle.std.specs.Option.{unwrap_or};
ghost use Rattle.cargo_workspaces.specs.Workspaces.{Text, text_cmp};
ghost use Rattle.feats_list.specs.platforms.inner.Counts.{HasCounts};

use std::alloc::AllocError;
use std::collections::BTreeMap;

/// Returns how often `text` was counted.
fn count_at(counts: &BTreeMap<&str, usize>, text: &str) -> usize
    ensures { result ≡ unwrap_or (get_by (λ k. text_cmp text.now k.now) counts.now) 0 }
{
    match counts.get(text) {
        Some(count) => *count,
        None => 0,
    }
}

/// Counts `text` once more. An error is returned if an allocation fails, or if the count doesn't fit.
pub(crate) fn count<'w>(
    counts: &mut BTreeMap<&'w str, usize>,
    text: &'w str,
) -> Result<(), AllocError>
    ensures { OnOk result ((texts : List Text) → HasCounts counts.old texts → HasCounts counts.new (texts ++ text.entry.now ∷ [])) }
{
    match count_at(counts, text).checked_add(1) {
        Some(more) => {
            let _old = counts.insert(text, more)?;
            Ok(())
        }
        None => Err(AllocError),
    }
}
