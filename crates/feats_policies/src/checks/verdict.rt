//! Broken rules.

use crate::Rule;
use plan_whys::Spot;

/// A broken rule.
#[derive(Drop)]
pub struct Verdict<'w> {
    pub rule: Rule<'w>,
    /// What breaks it, all of it on: of a `deny` the parts that its word names, of a `deny-duplicates` the packages. Empty for a `require`.
    pub spots: Vec<Spot<'w>>,
}
