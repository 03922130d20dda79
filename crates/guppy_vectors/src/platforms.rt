//! Calls on platform specs.
mod bridge;
mod specs;

use crate::shared::{Failure, Out, bytes_of, cut, word_at};
use guppy_features::FeatureGraph;
use platform_specs::{CfgFault, TargetCfg};
use std::alloc::Global;

/// The output, the target and the graph of a call.
#[derive(Clone, Copy)]
pub struct Start<'a> {
    pub out: &'a Out,
    pub alloc: Global,
    pub target: &'a TargetCfg,
    pub graph: FeatureGraph<'a>,
}

/// Makes the call of `line`. `Words` if no call has this name, or the failure of the call.
fn make_call(start: Start<'_>, line: &str) -> Result<(), Failure> {
    let (name, words) = cut(line);
    match name {
        "spec" => specs::spec(start, words),
        "held" => bridge::held(start),
        "on" => bridge::on(start, words),
        _ => Err(Failure::Words),
    }
}

/// Makes the calls of `script`, one for each line, in order. Writes each line after `< `, then the output of its call.
fn make_calls(start: Start<'_>, script: &str) {
    for line in script.lines() {
        start.out.text("< ", line);
        start.out.line("");
        if let Err(failure) = make_call(start, line) {
            start.out.failure(failure);
        }
    }
}

/// Makes the calls of `script` for the target of `triple` and the cfg text `text`, or writes the first malformed line of `text`.
/// `Memory` if an allocation fails.
fn answer_for<'a>(
    out: &'a Out,
    alloc: Global,
    graph: FeatureGraph<'a>,
    triple: &str,
    text: &str,
    script: &str,
) -> Result<(), Failure> {
    match TargetCfg::parse(alloc, triple, text) {
        Ok(target) => {
            let start = Start {
                out,
                alloc,
                target: &target,
                graph,
            };
            make_calls(start, script);
            drop(target);
        }
        Err(CfgFault::Malformed { line }) => {
            out.number("malformed cfg line ", line);
            out.line("");
        }
        Err(CfgFault::Memory) => return Err(Failure::Memory),
    }
    Ok(())
}

/// Makes the calls of `script` for the target of `files`: a triple and the path of a cfg text. `Words` if the text isn't UTF-8,
/// or the failure to read it.
pub fn answer(
    rt: &HostRuntime,
    out: &Out,
    files: &str,
    graph: FeatureGraph<'_>,
    script: &str,
) -> Result<(), Failure> {
    let bytes = bytes_of(rt, word_at(files, 1))?;
    match str::from_utf8(&bytes) {
        Ok(text) => answer_for(out, rt.alloc(), graph, word_at(files, 0), text, script),
        Err(_) => Err(Failure::Words),
    }
}
