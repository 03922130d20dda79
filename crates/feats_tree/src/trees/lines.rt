//! Branches as text.
ghost use Rattle.std.specs.Prelude.{◌≡◌, ◌++◌, ◌∷◌, [], IfOk, OnOk, flat_map, map, string_bytes};
ghost use Rattle.feats_tree.specs.trees.Branches.{AreTrees};
ghost use Rattle.feats_tree.specs.trees.Lines as spec;
ghost use Rattle.feats_tree.specs.trees.Titles.{title_text};
ghost use Rattle.feats_tree.specs.trees.inner.Levels.{above, line_by, marks_by, with_level};

use crate::trees::titles::{Title, title_of};
use crate::trees::trees::Branch;
use shown_texts::escaped;
use std::alloc::{AllocError, Global};

/// Appends the mark of a level that goes on or doesn't.
fn push_bar(text: &mut String, goes_on: bool) -> Result<(), AllocError>
    ensures { OnOk result (string_bytes text.new ≡ string_bytes text.old ++ spec.bar goes_on) }
{
    if goes_on {
        text.push_str("│   ")
    } else {
        text.push_str("    ")
    }
}

/// Appends the mark of a branch, whose level goes on or doesn't.
fn push_tee(text: &mut String, goes_on: bool) -> Result<(), AllocError>
    ensures { OnOk result (string_bytes text.new ≡ string_bytes text.old ++ spec.tee goes_on) }
{
    if goes_on {
        text.push_str("├── ")
    } else {
        text.push_str("└── ")
    }
}

/// Appends the mark of each of `levels`.
fn push_bars(text: &mut String, levels: &[bool]) -> Result<(), AllocError>
    ensures { OnOk result (string_bytes text.new ≡ string_bytes text.old ++ flat_map spec.bar levels.now) }
{
    for goes_on in levels {
        push_bar(text, *goes_on)?;
    }
    Ok(())
}

/// Appends the marks of `branch`, which is below `levels`.
fn push_marks(text: &mut String, levels: &[bool], branch: &Branch) -> Result<(), AllocError>
    ensures { OnOk result (string_bytes text.new ≡ string_bytes text.old ++ marks_by branch.now.depth levels.now branch.now.is_last) }
{
    if branch.depth == 0 {
        return Ok(());
    }
    push_bars(text, levels)?;
    push_tee(text, !branch.is_last)
}

/// Appends an empty line, if `branch` is a root and isn't `first`.
fn push_gap(text: &mut String, first: bool, branch: &Branch) -> Result<(), AllocError>
    ensures { OnOk result (string_bytes text.new ≡ string_bytes text.old ++ spec.gap first branch.now.depth) }
{
    if branch.depth == 0 && !first {
        return text.push_str("\n");
    }
    Ok(())
}

/// Appends ` (*)`, if `is_again` is true, and ends the line.
fn push_end(text: &mut String, is_again: bool) -> Result<(), AllocError>
    ensures { OnOk result (string_bytes text.new ≡ string_bytes text.old ++ (spec.star is_again ++ 10 ∷ [])) }
{
    text.push_str(if is_again { " (*)\n" } else { "\n" })
}

/// Sets `levels` to those above `branch`.
fn leave_levels(levels: &mut Vec<bool>, branch: &Branch)
    ensures { levels.new.items ≡ above branch.now.depth levels.old.items }
{
    levels.truncate(branch.depth.saturating_sub(1));
}

/// Appends the level of `branch` to `levels`, unless it is a root.
fn enter_level(levels: &mut Vec<bool>, branch: &Branch) -> Result<(), AllocError>
    ensures { OnOk result (levels.new.items ≡ with_level branch.now.depth levels.old.items branch.now.is_last) }
{
    if branch.depth > 0 {
        levels.push(!branch.is_last)?;
    }
    Ok(())
}

/// Appends the title of `node`, with its control characters escaped.
fn push_title(
    alloc: Global,
    text: &mut String,
    titles: &[Title<'_>],
    node: usize,
) -> Result<(), AllocError>
    ensures { OnOk result (string_bytes text.new ≡ string_bytes text.old ++ spec.shown_title (map title_text titles.now) node) }
{
    let title = escaped(alloc, title_of(titles, node))?;
    text.push_str(title.as_str())
}

/// Appends the line of `branch`. `levels` are those of the branch before it, and then those of `branch`.
fn push_line(
    alloc: Global,
    text: &mut String,
    levels: &mut Vec<bool>,
    titles: &[Title<'_>],
    first: bool,
    branch: &Branch,
) -> Result<(), AllocError>
    ensures text { OnOk result (string_bytes text.new ≡ string_bytes text.old ++ line_by (map title_text titles.now) first branch.now levels.old.items) }
    ensures levels { OnOk result (levels.new.items ≡ with_level branch.now.depth (above branch.now.depth levels.old.items) branch.now.is_last) }
{
    leave_levels(levels, branch);
    push_gap(text, first, branch)?;
    push_marks(text, levels, branch)?;
    push_title(alloc, text, titles, branch.node)?;
    push_end(text, branch.is_again)?;
    enter_level(levels, branch)
}

/// Returns a line for each of `branches`, as `cargo tree` prints it: the marks of the levels, the title of the node, and ` (*)` if its
/// links are shown above. An empty line is before each root but the first. Control characters in titles are escaped, the line feed too.
pub fn branch_lines(
    alloc: Global,
    branches: &[Branch],
    titles: &[Title<'_>],
) -> Result<String, AllocError>
    requires { AreTrees branches.now }
    ensures { IfOk result (λ text. string_bytes text ≡ spec.branch_lines (map title_text titles.now) branches.now) }
{
    let mut text = String::new(alloc);
    let mut levels = Vec::new(alloc);
    let mut first = true;
    for branch in branches {
        push_line(alloc, &mut text, &mut levels, titles, first, branch)?;
        first = false;
    }
    Ok(text)
}
