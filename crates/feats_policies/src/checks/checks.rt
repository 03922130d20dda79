//! Checks builds against the rules of policies.
ghost use Rattle.std.specs.Prelude.{◌≡◌, ◌++◌, ◌∷◌, [], IfOk, IfErr, OnOk, map};
ghost use Rattle.feats_policies.specs.Views.{rule_text};
ghost use Rattle.feats_policies.specs.checks.Checks as spec;
ghost use Rattle.feats_policies.specs.checks.Found.{found_of};
ghost use Rattle.feats_policies.specs.checks.Views.{build_text, refusal_text, verdict_text};
ghost use Rattle.feats_policies.specs.checks.inner.Returned.{found_text};
ghost use Rattle.feats_policies.specs.checks.inner.Verdicts.{Adds, IsRefusal};

use crate::Rule;
use crate::checks::build::Build;
use crate::checks::fault::CheckFault;
use crate::checks::found::{Found, found_of};
use crate::checks::verdict::Verdict;
use std::alloc::Global;

/// Appends the verdict on `rule` if the finding `found` breaks it.
fn push_verdict<'w>(
    verdicts: &mut Vec<Verdict<'w>>,
    rule: Rule<'w>,
    found: Found<'w>,
) -> Result<(), CheckFault<'w>>
    ensures added { OnOk result (Adds (map verdict_text verdicts.old.items) (map verdict_text verdicts.new.items) (rule_text rule.entry) (found_text found.entry)) }
    ensures fault { IfErr result (λ fault. IsRefusal (rule_text rule.entry) (found_text found.entry) (refusal_text fault)) }
{
    match found {
        Found::Kept => Ok(()),
        Found::Broken(spots) => {
            verdicts.push(Verdict { rule, spots })?;
            Ok(())
        }
        Found::Several { word, candidates } => Err(CheckFault::Several {
            line: rule.line,
            word,
            candidates,
        }),
        Found::NoPlatform(triple) => Err(CheckFault::NoPlatform {
            line: rule.line,
            triple,
        }),
    }
}

/// Appends the verdict on `rule` in `build`, if it is broken.
fn push_rule<'b>(
    alloc: Global,
    build: Build<'b, '_, '_, '_>,
    rule: Rule<'b>,
    verdicts: &mut Vec<Verdict<'b>>,
) -> Result<(), CheckFault<'b>>
    ensures added { OnOk result (Adds (map verdict_text verdicts.old.items) (map verdict_text verdicts.new.items) (rule_text rule.entry) (found_of (build_text build.entry) (rule_text rule.entry).kind)) }
    ensures fault { IfErr result (λ fault. IsRefusal (rule_text rule.entry) (found_of (build_text build.entry) (rule_text rule.entry).kind) (refusal_text fault)) }
{
    let found = found_of(alloc, build, rule.kind)?;
    push_verdict(verdicts, rule, found)
}

/// Returns the broken ones of `rules` in `build`, in their order. Returns the first rule that can't be checked, because its word has
/// several meanings or its triple is that of no platform of the build, and `Memory` if an allocation fails. A word that names nothing
/// breaks a `require`, and keeps a `deny`.
pub fn check<'b>(
    alloc: Global,
    build: Build<'b, '_, '_, '_>,
    rules: &[Rule<'b>],
) -> Result<Vec<Verdict<'b>>, CheckFault<'b>>
    ensures verdicts { IfOk result (λ verdicts. spec.AreVerdicts (build_text build.entry) (map rule_text rules.now) (map verdict_text verdicts.items)) }
    ensures fault { IfErr result (λ fault. spec.IsFirstRefusal (spec.refusals (build_text build.entry) (map rule_text rules.now)) (refusal_text fault)) }
{
    let mut verdicts = Vec::new(alloc);
    for rule in rules {
        push_rule(alloc, build, *rule, &mut verdicts)?;
    }
    Ok(verdicts)
}
