//! The ids of a table's entries.
ghost use Rattle.std.specs.Prelude.{◌≡◌, ◌<◌, IfOk};
ghost use Rattle.std.specs.Fmt.{decimal};

use std::alloc::{AllocError, Global};
use std::marker::Model;

/// The ids of entries: the decimal text of each number below a count. A contract sees the count.
#[derive(Drop)]
pub struct Ids {
    texts: Vec<String>,
}

impl Model for Ids {
    ghost use Rattle.std.specs.Prelude.{ℕ, length, map, string_bytes};
    ghost use Rattle.std.specs.Coded.{coded_ℕ};

    ghost Value = { ℕ };

    ghost coded = { coded_ℕ };

    ghost use Rattle.plan_rows.specs.IdTexts.{AreDecimals};

    ghost view = { λ ids. length ids.texts.items };

    ghost invariant = { λ ids. AreDecimals (map string_bytes ids.texts.items) };
}

impl Ids {
    /// Returns the ids of the numbers below `count`.
    #[tactic(auto, using(crate::proofs::Lists::decimals_pushed))]
    pub fn new(alloc: Global, count: usize) -> Result<Ids, AllocError>
        ensures { IfOk result (λ ids. ids ≡ count) }
    {
        let mut texts = Vec::with_capacity(alloc, count)?;
        for number in 0..count {
            texts.push(format!(in alloc; "{number}")?)?;
        }
        Ok(Ids { texts })
    }

    /// Returns the number of ids.
    pub fn count(&self) -> usize
        ensures { result ≡ self.now }
    {
        self.texts.len()
    }

    /// Returns the id of `number`.
    pub fn text(&self, number: usize) -> &str
        requires { number < self.now }
        ensures { result.now ≡ decimal number }
    {
        self.texts[number].as_str()
    }
}
