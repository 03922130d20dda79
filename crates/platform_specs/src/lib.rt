//! Platform specs: `cfg(..)` expressions and platform names, and whether they hold for a target.
#![tactic(auto)]

mod expression_reader;
mod expression_text;
mod fact;
mod fact_reader;
mod fault;
mod laws;
mod parts;
mod platform_spec;
mod target_cfg;
mod walk;

pub use fact::Fact;
pub use fault::{CfgFault, SpecFault};
pub use laws::{one_answer, one_spec, one_target};
pub use platform_spec::PlatformSpec;
pub use target_cfg::TargetCfg;
