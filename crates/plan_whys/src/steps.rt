//! The steps that explain why a label is on.

use cargo_plans::Side;
use feature_labels::FeatureLabel;

/// A label of a package, on a side.
#[derive(Clone, Copy)]
pub struct Spot<'w> {
    pub side: Side,
    /// The number of the package.
    pub package: usize,
    pub label: FeatureLabel<'w>,
}

/// The reason why a spot is on.
#[derive(Clone, Copy)]
pub enum WhyReason<'w> {
    /// It is the command feature of a started package.
    Selected,
    /// The spot `start`, an earlier one, leads to it; an item that waits for an optional dependency also needs `gate`, an earlier one.
    From {
        start: Spot<'w>,
        gate: Option<Spot<'w>>,
    },
}

/// A spot that is on, and the reason.
#[derive(Clone, Copy)]
pub struct WhyStep<'w> {
    pub at: Spot<'w>,
    pub reason: WhyReason<'w>,
}

/// A step, and every direct reason of its spot.
#[derive(Drop)]
pub struct ReasonedStep<'w> {
    pub step: WhyStep<'w>,
    pub reasons: Vec<WhyReason<'w>>,
}
