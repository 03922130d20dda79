//! Consecutive texts of a list.
ghost use Rattle.std.specs.Prelude.{◌≡◌, ◌<◌, ◌≤◌, ◌+◌, IfOk, Some, drop, length, slice_get, take};
ghost use Rattle.guppy_packages.specs.Parts.{first_text};

use crate::narrow::narrow;
use crate::text_list::TextList;
use std::alloc::AllocError;
use std::marker::Model;
use std::rc::Rc;

/// Consecutive texts of a list, which all runs share. A contract sees it as these texts.
#[derive(Drop)]
pub(crate) struct TextRun {
    list: Rc<TextList>,
    first: u32,
    count: u32,
}

impl Model for TextRun {
    ghost use Rattle.std.specs.Prelude.{◌<◌, ◌≤◌, ◌+◌, ◌^◌, List, drop, length, take};
    ghost use Rattle.guppy_packages.specs.Rows.{Text};

    ghost Value = { List Text };

    ghost view = { λ r. take r.count (drop r.first r.list.value) };

    ghost invariant = { λ r. (r.first + r.count ≤ length r.list.value) × (r.first + r.count < 2 ^ 64) };
}

impl TextRun {
    /// Returns the `count` texts of `list` from text `first` on. Returns `AllocError` if one of these numbers doesn't fit in 32 bits.
    pub(crate) fn new(
        list: &Rc<TextList>,
        first: usize,
        count: usize,
    ) -> Result<TextRun, AllocError>
        requires { first + count ≤ length list.now.value }
        ensures { IfOk result (λ run. run ≡ take count (drop first list.now.value)) }
    {
        let first = narrow(first)?;
        let count = narrow(count)?;
        Ok(TextRun {
            list: list.clone()?,
            first,
            count,
        })
    }

    /// Returns the number of texts.
    pub(crate) fn len(&self) -> usize
        ensures { result ≡ length self.now }
    {
        self.count as usize
    }

    /// Returns the first text.
    #[inline(always)]
    pub(crate) fn first(&self) -> &str
        requires { 0 < length self.now }
        ensures { result.now ≡ first_text self.now }
    {
        self.list.text(self.first as usize)
    }

    /// Returns text `ix` of those after the first.
    pub(crate) fn later(&self, ix: usize) -> &str
        requires { ix < length (drop 1 self.now) }
        ensures { slice_get (drop 1 self.now) ix ≡ Some result.now }
    {
        self.list.text(self.first as usize + 1 + ix)
    }
}
