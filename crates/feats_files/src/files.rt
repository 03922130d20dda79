//! The files that a command line names.
ghost use Rattle.std.specs.Prelude.{◌≡◌, ◌++◌, ◌∷◌, [], IfOk, IfErr, OnOk, map, string_bytes};
ghost use Rattle.std.specs.Fmt.{decimal};
ghost use Rattle.platform_specs.specs.Expressions.{Target};
ghost use Rattle.feats_words.specs.Views.{source_text};
ghost use Rattle.feats_files.specs.FileViews.{file_text};
ghost use Rattle.feats_files.specs.Files as spec;
ghost use Rattle.feats_files.specs.Messages.{IsRefused, Says};

use crate::fault::Fault;
use crate::message::refused;
use cargo_manifests::resolvers::{KeyFault, ManifestFault, Resolver, resolver_of_bytes};
use feats_words::ResolverSource;
use platform_specs::{CfgFault, TargetCfg};
use std::alloc::{AllocError, Global};
use std::str;

/// A platform, and the bytes of its cfg text.
pub struct PlatformFile<'f> {
    pub triple: &'f str,
    pub bytes: Vec<u8>,
}

impl Drop for PlatformFile<'_> {
    // Written out, so that a crate above calls it. A derived drop is proved in each crate that drops a value, with those of all fields.
    fn drop(self) {
        let PlatformFile {
            triple: _triple,
            bytes: _bytes,
        } = self;
    }
}

/// Returns the refusal of a manifest.
fn manifest_refused(alloc: Global, fault: ManifestFault) -> Fault
    ensures { IsRefused (spec.manifest_message fault) result }
{
    match fault {
        ManifestFault::NotText => refused(
            alloc,
            &["the manifest isn't UTF-8: pass the root Cargo.toml"],
        ),
        ManifestFault::NotToml => refused(
            alloc,
            &["the manifest isn't a TOML document: pass the root Cargo.toml"],
        ),
        ManifestFault::Key(KeyFault::Unknown(key)) => refused(
            alloc,
            &[
                "the manifest's `",
                key.as_str(),
                "` is none that Cargo knows: give the version by --resolver",
            ],
        ),
        ManifestFault::Key(KeyFault::Missing(key)) => refused(
            alloc,
            &[
                "the manifest has no `",
                key.as_str(),
                "`, which a package inherits: give the version by --resolver",
            ],
        ),
        ManifestFault::Memory => Fault::Memory,
    }
}

/// Returns the version of the resolver: the given one, or the one that the manifest with these bytes chooses.
pub fn resolver(
    alloc: Global,
    source: ResolverSource<'_>,
    manifest: &[u8],
) -> Result<Resolver, Fault>
    ensures version { IfOk result (spec.IsVersion (source_text source.entry) manifest.now) }
    ensures fault { IfErr result (λ fault. Says fault (spec.IsVersionRefusal (source_text source.entry) manifest.now)) }
{
    match source {
        ResolverSource::Version(version) => Ok(version),
        ResolverSource::Manifest(_) => match resolver_of_bytes(alloc, manifest) {
            Ok(version) => Ok(version),
            Err(ManifestFault::Memory) => Err(Fault::Memory),
            Err(fault) => Err(manifest_refused(alloc, fault)),
        },
    }
}

/// Returns the decimal text of `number`.
fn decimal_text(alloc: Global, number: usize) -> Result<String, AllocError>
    ensures { IfOk result (λ text. string_bytes text ≡ decimal number) }
{
    format!(in alloc; "{number}")
}

/// Returns the refusal of line `line` of a cfg text.
fn line_refused(alloc: Global, triple: &str, line: usize) -> Fault
    ensures { IsRefused (spec.line_message triple.now line) result }
{
    match decimal_text(alloc, line) {
        Ok(number) => refused(
            alloc,
            &[
                "line ",
                number.as_str(),
                " of the cfg text of ",
                triple,
                " is no fact: make it by `rustc --print cfg --target ",
                triple,
                " --crate-type proc-macro` without the line `proc_macro`",
            ],
        ),
        Err(_) => Fault::Memory,
    }
}

/// Returns the target of a triple and the bytes of its cfg text.
pub fn target(alloc: Global, triple: &str, bytes: &[u8]) -> Result<TargetCfg, Fault>
    ensures target { IfOk result (spec.IsTargetOf triple.now bytes.now) }
    ensures fault { IfErr result (λ fault. Says fault (spec.IsCfgRefusal triple.now bytes.now)) }
{
    let Ok(text) = str::from_utf8(bytes) else {
        return Err(refused(
            alloc,
            &[
                "the cfg text of ",
                triple,
                " isn't UTF-8: make it by `rustc --print cfg --target ",
                triple,
                " --crate-type proc-macro` without the line `proc_macro`",
            ],
        ));
    };
    match TargetCfg::parse(alloc, triple, text) {
        Ok(target) => Ok(target),
        Err(CfgFault::Malformed { line }) => Err(line_refused(alloc, triple, line)),
        Err(CfgFault::Memory) => Err(Fault::Memory),
    }
}

/// Appends the target of `file`.
fn push_target(
    alloc: Global,
    targets: &mut Vec<TargetCfg>,
    file: &PlatformFile<'_>,
) -> Result<(), Fault>
    ensures target { OnOk result ((t : Target) × spec.IsTargetOf file.now.triple.now file.now.bytes.items t × (targets.new.items ≡ targets.old.items ++ t ∷ [])) }
    ensures fault { IfErr result (λ fault. Says fault (spec.IsCfgRefusal file.now.triple.now file.now.bytes.items)) }
{
    let one = target(alloc, file.triple, &file.bytes)?;
    targets.push(one)?;
    Ok(())
}

/// Returns the targets of `files`.
fn targets_of(alloc: Global, files: &[PlatformFile<'_>]) -> Result<Vec<TargetCfg>, Fault>
    ensures targets { IfOk result (λ targets. spec.AreTargetsOf (map file_text files.now) targets.items) }
    ensures fault { IfErr result (λ fault. Says fault (spec.IsFirstCfgRefusal (map file_text files.now))) }
{
    let mut targets = Vec::with_capacity(alloc, files.len())?;
    for file in files {
        match push_target(alloc, &mut targets, file) {
            Ok(()) => {}
            Err(fault) => return Err(fault),
        }
    }
    Ok(targets)
}

/// Returns the target platforms: the host alone, if there are no files of targets.
pub fn target_platforms(
    alloc: Global,
    host: &PlatformFile<'_>,
    files: &[PlatformFile<'_>],
) -> Result<Vec<TargetCfg>, Fault>
    ensures targets { IfOk result (λ targets. spec.AreTargetsOf (spec.target_files (file_text host.now) (map file_text files.now)) targets.items) }
    ensures fault { IfErr result (λ fault. Says fault (spec.IsFirstCfgRefusal (spec.target_files (file_text host.now) (map file_text files.now)))) }
{
    match files {
        [] => {
            let mut targets = Vec::with_capacity(alloc, 1)?;
            targets.push(target(alloc, host.triple, &host.bytes)?)?;
            Ok(targets)
        }
        [_, ..] => targets_of(alloc, files),
    }
}
