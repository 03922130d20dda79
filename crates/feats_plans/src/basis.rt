//! The version of the resolver and the platforms of a plan.
ghost use Rattle.std.specs.Prelude.{IfOk, IfErr};
ghost use Rattle.feats_files.specs.Messages.{Says};
ghost use Rattle.feats_plans.specs.Bases.{IsBasis, IsBasisRefusal};
ghost use Rattle.feats_plans.specs.BasisView.{basis_text};
ghost use Rattle.feats_plans.specs.Inputs.{inputs_text};

use crate::inputs::PlanFiles;
use cargo_manifests::resolvers::Resolver;
use feats_files::{Fault, resolver, target, target_platforms};
use feats_words::CommandArguments;
use platform_specs::TargetCfg;
use std::alloc::Global;

/// The version of the resolver and the platforms of a plan.
#[derive(Drop)]
pub(crate) struct Basis {
    pub(crate) version: Resolver,
    pub(crate) host: TargetCfg,
    /// The target platforms: the host alone, if the arguments name none.
    pub(crate) targets: Vec<TargetCfg>,
}

/// Returns the version of the resolver and the platforms. The first file at fault is refused: the manifest, the host's, and those of the
/// targets.
pub(crate) fn basis_of(
    alloc: Global,
    arguments: &CommandArguments<'_>,
    files: &PlanFiles<'_>,
) -> Result<Basis, Fault>
    ensures basis { IfOk result (λ basis. IsBasis (inputs_text arguments.now files.now) (basis_text basis)) }
    ensures fault { IfErr result (λ fault. Says fault (IsBasisRefusal (inputs_text arguments.now files.now))) }
{
    let version = resolver(alloc, arguments.resolver, &files.manifest)?;
    let host = target(alloc, files.host.triple, &files.host.bytes)?;
    let targets = target_platforms(alloc, &files.host, &files.targets)?;
    Ok(Basis {
        version,
        host,
        targets,
    })
}
