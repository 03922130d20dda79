//! The program `guppy_vectors`: calls of the libraries, for tests.
//!
//! Standard input contains sections. The first line of a section is `= PART FILES`, and each other line is a call. The program
//! writes each call after `< `, then its result.
//!
//! - `= layers [ROWS]`: calls on the layers below feature graphs, and on the package graph of the row file ROWS.
//! - `= graphs ROWS [OTHER]`: calls on the feature graph of ROWS, and walks over it. OTHER is the row file that the call `built-from`
//!   compares it with.
//! - `= surface ROWS`: calls of `guppy_features` on the feature graph of ROWS. A call is its words, then `: ` and the ids of its
//!   features if it takes any. Steps follow after ` ; `, and refused links after another ` ; `.
//! - `= platforms TRIPLE CFG [ROWS]`: calls on platform specs. CFG is the path of a cfg text.
//!
//! Without a row file the graph is empty.
#![tactic(auto)]

mod built;
mod graphs;
mod layers;
mod platforms;
mod shared;
mod surface;

use crate::shared::{Failure, Out, cut, script};
use std::process::ExitCode;

/// Makes the calls of a section. `Words` if there is no such part, or the failure to read its files.
fn answer(rt: &HostRuntime, out: &Out, section: &str) -> Result<(), Failure> {
    let (head, calls) = section.split_once('\n').unwrap_or((section, ""));
    let (part, files) = cut(head);
    if part == "layers" {
        layers::answer(rt, out, files, calls)
    } else {
        built::answer(rt, out, part, files, calls)
    }
}

/// Makes the calls of each section of `script`, and writes the failures of sections.
fn answer_each(rt: &HostRuntime, out: &Out, script: &str) {
    for section in script.strip_prefix("= ").unwrap_or(script).split("\n= ") {
        if let Err(failure) = answer(rt, out, section) {
            out.failure(failure);
        }
    }
}

fn main(rt: HostRuntime) -> ExitCode {
    let out = Out::new(rt.stdout());
    match script(&rt) {
        Ok(script) => answer_each(&rt, &out, script.as_str()),
        Err(failure) => out.failure(failure),
    }
    out.status()
}
