//! Reads a whole text as an expression, or as the name of a platform.
ghost use Rattle.std.specs.Prelude.{◌≡◌, IfOk, ◌≤◌, IfErr, IfSome, MatchOption, length};
ghost use Rattle.platform_specs.specs.inner.Positions.{Stopped, ReadAll, SpelledBy, IsUnread, platform_step};
ghost use Rattle.platform_specs.specs.Grammar.{is_in_platform};

use crate::expression_reader::{ExpressionReader, Stage, Unread};
use crate::parts::Part;
use std::alloc::Global;

/// Returns the parts of the expression that `text` spells before its last `)`. The error is `Left` with the
/// number of remaining bytes at which no expression goes on, or `Memory`.
pub fn read_parts(alloc: Global, text: &str) -> Result<Vec<Part>, Unread>
    ensures found { IfOk result (λ parts. SpelledBy text.now parts.items) }
    ensures unread { IfErr result (λ unread. IsUnread text.now unread) }
{
    let mut reader = ExpressionReader::new(alloc);
    let mut rest = text.chars();
    let mut left = text.len();
    'text: while let Some(c) = rest.next() {
        if !reader.step(alloc, c)? {
            return Err(Unread::Left(left));
        }
        left = rest.as_str().len();
    }
    match reader.stage {
        Stage::Finished => Ok(reader.parts),
        _ => Err(Unread::Left(0)),
    }
}

/// Returns true if `c` may be in the name of a platform.
fn is_in_platform(c: char) -> bool
    ensures { result ≡ is_in_platform c }
{
    c.is_alphanumeric() || matches!(c, '_' | '-' | '.')
}

/// Returns the number of bytes from the first character on that isn't allowed in a platform name; `None` if
/// all are.
pub fn unread_name(text: &str) -> Option<usize>
    ensures read { MatchOption result (ReadAll platform_step tt text.now tt) (λ left. Stopped platform_step tt text.now left) }
    ensures within { IfSome result (λ left. left ≤ length text.now) }
{
    let mut rest = text.chars();
    let mut left = text.len();
    'text: while let Some(c) = rest.next() {
        if !is_in_platform(c) {
            return Some(left);
        }
        left = rest.as_str().len();
    }
    None
}
