//! Arrays of numbers, and of pairs of numbers.
ghost use Rattle.std.specs.Prelude.{◌≡◌, IfOk, OnOk, flat_map, map};
ghost use Rattle.json.specs.Print.{print};
ghost use Rattle.feats_lines.specs.parts.Members.{Appends};
ghost use Rattle.feats_report.specs.Numbers as spec;

use json::Writer;
use std::alloc::{AllocError, Global};

/// Writes each of `numbers`.
fn write_each(writer: &mut Writer, numbers: &[usize]) -> Result<(), AllocError>
    ensures { OnOk result (Appends writer.old writer.new (map spec.number_token numbers.now)) }
{
    for number in numbers {
        writer.u64(*number as u64)?;
    }
    Ok(())
}

/// Writes the array of `numbers`.
fn write_numbers(writer: &mut Writer, numbers: &[usize]) -> Result<(), AllocError>
    ensures { OnOk result (Appends writer.old writer.new (spec.number_tokens numbers.now)) }
{
    writer.begin_array()?;
    write_each(writer, numbers)?;
    writer.end_array()
}

/// Returns the array of `numbers`.
pub(crate) fn numbers_text(alloc: Global, numbers: &[usize]) -> Result<Vec<u8>, AllocError>
    ensures { IfOk result (λ text. text.items ≡ print (spec.number_tokens numbers.now)) }
{
    let mut writer = Writer::new(Vec::new(alloc));
    write_numbers(&mut writer, numbers)?;
    Ok(writer.into_inner())
}

/// Writes the array of the two numbers of `pair`.
fn write_pair(writer: &mut Writer, pair: (usize, usize)) -> Result<(), AllocError>
    ensures { OnOk result (Appends writer.old writer.new (spec.pair_tokens pair)) }
{
    writer.begin_array()?;
    writer.u64(pair.0 as u64)?;
    writer.u64(pair.1 as u64)?;
    writer.end_array()
}

/// Writes the array of each of `pairs`.
fn write_each_pair(writer: &mut Writer, pairs: &[(usize, usize)]) -> Result<(), AllocError>
    ensures { OnOk result (Appends writer.old writer.new (flat_map spec.pair_tokens pairs.now)) }
{
    for pair in pairs {
        write_pair(writer, *pair)?;
    }
    Ok(())
}

/// Writes the array of `pairs`, each of them an array of two numbers.
fn write_pairs(writer: &mut Writer, pairs: &[(usize, usize)]) -> Result<(), AllocError>
    ensures { OnOk result (Appends writer.old writer.new (spec.pairs_tokens pairs.now)) }
{
    writer.begin_array()?;
    write_each_pair(writer, pairs)?;
    writer.end_array()
}

/// Returns the array of `pairs`, each of them an array of two numbers.
pub(crate) fn pairs_text(alloc: Global, pairs: &[(usize, usize)]) -> Result<Vec<u8>, AllocError>
    ensures { IfOk result (λ text. text.items ≡ print (spec.pairs_tokens pairs.now)) }
{
    let mut writer = Writer::new(Vec::new(alloc));
    write_pairs(&mut writer, pairs)?;
    Ok(writer.into_inner())
}
