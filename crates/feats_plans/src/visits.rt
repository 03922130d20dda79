//! From the bytes of files to a plan, which is passed to a visitor.
ghost use Rattle.std.specs.Prelude.{IfOk, IfErr};
ghost use Rattle.json.specs.Value.{value_view};
ghost use Rattle.feats_files.specs.Messages.{Says};
ghost use Rattle.feats_plans.specs.BasisView.{basis_text};
ghost use Rattle.feats_plans.specs.Inputs.{inputs_text};
ghost use Rattle.feats_plans.specs.Planning.{AfterDocument, AfterPlanning, AfterWorkspace, IsDocumentRefusal, IsPlanningRefusal, IsWorkspaceRefusal};

use crate::basis::{Basis, basis_of};
use crate::documents::workspace_of;
use crate::inputs::PlanFiles;
use crate::planned::PlanVisitor;
use crate::planning::workspace_output;
use feats_files::{Fault, document_of, refused};
use feats_words::CommandArguments;
use json::{Scratch, Value};
use std::alloc::Global;
use std::str;

/// Returns the output of `visitor` for the plan of the workspace that `document` describes.
fn document_output<V: PlanVisitor>(
    alloc: Global,
    arguments: &CommandArguments<'_>,
    files: &PlanFiles<'_>,
    basis: &Basis,
    document: Value<'_>,
    visitor: &V,
) -> Result<V::Output, Fault>
    ensures output { IfOk result (λ output. AfterWorkspace (inputs_text arguments.now files.now) (basis_text basis.now) (λ p. V.gives visitor.now p output) (value_view document.entry)) }
    ensures fault { IfErr result (λ fault. Says fault (IsWorkspaceRefusal (inputs_text arguments.now files.now) (basis_text basis.now) (V.refuses visitor.now) (value_view document.entry))) }
{
    let workspace = workspace_of(alloc, document)?;
    workspace_output(alloc, arguments, files, basis, &workspace, visitor)
}

/// Returns the output of `visitor` for the plan by the bytes of a document.
fn bytes_output<V: PlanVisitor>(
    alloc: Global,
    arguments: &CommandArguments<'_>,
    files: &PlanFiles<'_>,
    basis: &Basis,
    bytes: &[u8],
    visitor: &V,
) -> Result<V::Output, Fault>
    ensures output { IfOk result (λ output. AfterDocument (inputs_text arguments.now files.now) (basis_text basis.now) bytes.now (λ p. V.gives visitor.now p output)) }
    ensures fault { IfErr result (λ fault. Says fault (IsDocumentRefusal (inputs_text arguments.now files.now) (basis_text basis.now) bytes.now (V.refuses visitor.now))) }
{
    let Ok(text) = str::from_utf8(bytes) else {
        return Err(refused(
            alloc,
            &[
                "the document isn't UTF-8: make it by `cargo metadata --format-version 1 --all-features`",
            ],
        ));
    };
    let mut scratch = Scratch::new(alloc);
    let document = document_of(alloc, text, &mut scratch)?;
    document_output(alloc, arguments, files, basis, document, visitor)
}

/// Returns the output of `visitor` for the plan of `arguments`, by the bytes of `files` and of the document. The first file at fault is
/// refused: the manifest, the host's, those of the targets, and then the document, which may have no plan. The fault of `visitor` is
/// the last.
pub fn visit_plan<V: PlanVisitor>(
    alloc: Global,
    arguments: &CommandArguments<'_>,
    files: &PlanFiles<'_>,
    bytes: &[u8],
    visitor: &V,
) -> Result<V::Output, Fault>
    ensures output { IfOk result (λ output. AfterPlanning (inputs_text arguments.now files.now) bytes.now (λ p. V.gives visitor.now p output)) }
    ensures fault { IfErr result (λ fault. Says fault (IsPlanningRefusal (inputs_text arguments.now files.now) bytes.now (V.refuses visitor.now))) }
{
    let basis = basis_of(alloc, arguments, files)?;
    bytes_output(alloc, arguments, files, &basis, bytes, visitor)
}
