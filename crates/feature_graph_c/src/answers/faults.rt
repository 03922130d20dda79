//! The answers to rows with a fault.
ghost use Rattle.std.specs.Prelude.{◌≡◌, ◌++◌, IfOk, OnOk};
ghost use Rattle.feature_graph_c.specs.binary.Records.{number};
ghost use Rattle.feature_graph_c.specs.answers.Answers as spec;

use crate::binary::push_number;
use guppy_packages::RowFault;
use row_files::RowFileError;
use std::alloc::{AllocError, Global};

/// Returns the number of a row's fault.
fn fault_number(fault: RowFault) -> usize
    ensures { result ≡ spec.fault_number fault }
{
    match fault {
        RowFault::NoPackage => 0,
        RowFault::DuplicatePackage => 1,
        RowFault::DuplicateFeature => 2,
        RowFault::UnknownTarget => 3,
        RowFault::OtherName => 4,
        RowFault::Memory => 5,
    }
}

/// Appends the record of a malformed line.
fn push_malformed(bytes: &mut Vec<u8>, line: usize) -> Result<(), AllocError>
    ensures { OnOk result (bytes.new.items ≡ bytes.old.items ++ (number 4 ++ number line)) }
{
    push_number(bytes, 4)?;
    push_number(bytes, line)
}

/// Appends the record of a row's fault.
fn push_row(bytes: &mut Vec<u8>, line: usize, fault: RowFault) -> Result<(), AllocError>
    ensures { OnOk result (bytes.new.items ≡ bytes.old.items ++ (number 5 ++ number line ++ number (spec.fault_number fault))) }
{
    push_number(bytes, 5)?;
    push_number(bytes, line)?;
    push_number(bytes, fault_number(fault))
}

/// Appends the record of a fault.
fn push_fault(bytes: &mut Vec<u8>, error: RowFileError) -> Result<(), AllocError>
    ensures { OnOk result (bytes.new.items ≡ bytes.old.items ++ spec.fault_record error) }
{
    match error {
        RowFileError::NotText => push_number(bytes, 3),
        RowFileError::Malformed { line } => push_malformed(bytes, line),
        RowFileError::Row { line, fault } => push_row(bytes, line, fault),
        RowFileError::Memory => push_number(bytes, 1),
    }
}

/// Returns the answer to rows with the fault `error`. `AllocError` is the only error.
pub(crate) fn fault_answer(alloc: Global, error: RowFileError) -> Result<Vec<u8>, AllocError>
    ensures { IfOk result (λ answer. answer.items ≡ spec.fault_record error) }
{
    let mut answer = Vec::new(alloc);
    push_fault(&mut answer, error)?;
    Ok(answer)
}
