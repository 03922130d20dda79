//! The truth of an expression, by one walk over its parts without allocations.
ghost use Rattle.std.specs.Prelude.{◌≡◌, ◌^◌, ◌<◌, ◌+◌, ◌≤◌, length, true};
ghost use Rattle.platform_specs.specs.inner.Walk.{walk_step, walk_over, walking, read_part, at_join};

use crate::parts::{Operator, Part};
use crate::target_cfg::TargetCfg;

/// The truth so far, and the number of open operators whose remaining parts are skipped.
#[derive(Clone, Copy)]
pub struct Walk {
    pub value: bool,
    pub skipped: usize,
}

/// Returns the walk after a part of the operator with the truth `value`.
fn at_join(operator: Operator, value: bool) -> Walk
    ensures { result ≡ at_join operator value }
{
    match operator {
        Operator::All => Walk {
            value,
            skipped: usize::from(!value),
        },
        Operator::Any => Walk {
            value,
            skipped: usize::from(value),
        },
        Operator::Not => Walk {
            value: !value,
            skipped: 0,
        },
    }
}

/// Returns the walk after a `part` that isn't skipped.
fn read_part(target: &TargetCfg, part: &Part, value: bool) -> Walk
    ensures { result ≡ read_part target.now.facts part.now value }
{
    match part {
        Part::Open(operator) => Walk {
            value: !matches!(operator, Operator::Any),
            skipped: 0,
        },
        Part::Constant(constant) => Walk {
            value: *constant,
            skipped: 0,
        },
        Part::Fact(fact) => Walk {
            value: target.is_known(fact),
            skipped: 0,
        },
        Part::Join(operator) => at_join(*operator, value),
        Part::Close => Walk { value, skipped: 0 },
    }
}

/// Returns the walk after `part`.
fn walk_step(target: &TargetCfg, part: &Part, walk: Walk) -> Walk
    requires { walk.skipped + 1 < 2 ^ 64 }
    ensures step { result ≡ walk_step target.now.facts part.now walk }
    ensures deeper { result.skipped ≤ walk.skipped + 1 }
{
    if walk.skipped == 0 {
        return read_part(target, part, walk.value);
    }
    let skipped = match part {
        Part::Open(_) => walk.skipped + 1,
        Part::Close => walk.skipped - 1,
        _ => walk.skipped,
    };
    Walk {
        value: walk.value,
        skipped,
    }
}

/// Returns the walk after all of `parts`.
pub fn walk_over(target: &TargetCfg, parts: &[Part]) -> Walk
    ensures { result ≡ walk_over target.now.facts parts.now (walking true) }
{
    let mut walk = Walk {
        value: true,
        skipped: 0,
    };
    for part in parts {
        walk = walk_step(target, part, walk);
    }
    walk
}
