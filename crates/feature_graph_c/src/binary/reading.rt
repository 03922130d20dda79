//! The numbers of a request.
ghost use Rattle.std.specs.Prelude.{◌≡◌, IfOk, length};
ghost use Rattle.std.specs.Int.{from_le_bytes, w64};
ghost use Rattle.std.specs.Option.{option_map};
ghost use Rattle.feature_graph_c.specs.binary.Words as spec;

use std::alloc::{AllocError, Global};

/// Returns the number whose record is `bytes`.
fn number_of(bytes: &[u8]) -> usize
    requires { length bytes.now ≡ 8 }
    ensures { result ≡ from_le_bytes w64 bytes.now }
{
    usize::from_le_bytes([
        bytes[0], bytes[1], bytes[2], bytes[3], bytes[4], bytes[5], bytes[6], bytes[7],
    ])
}

/// Returns the numbers whose records are `bytes`, or `None` if their length is no multiple of eight.
#[tactic(auto, using(crate::proofs::WordLemmas::too_short))]
pub fn words(alloc: Global, bytes: &[u8]) -> Result<Option<Vec<usize>>, AllocError>
    ensures { IfOk result (λ found. option_map (λ ws. ws.items) found ≡ spec.words bytes.now) }
{
    let mut words = Vec::with_capacity(alloc, bytes.len() / 8)?;
    let mut rest = bytes;
    while rest.len() >= 8 {
        let (first, tail) = rest.split_at(8);
        words.push(number_of(first))?;
        rest = tail;
    }
    if rest.is_empty() {
        Ok(Some(words))
    } else {
        Ok(None)
    }
}

/// Returns the list at the beginning of `words`, after its count, and the numbers after it. Returns `None` if there are fewer.
pub fn counted(words: &[usize]) -> Option<(&[usize], &[usize])>
    ensures { option_map (λ parts. (parts.0.now, parts.1.now)) result ≡ spec.counted words.now }
{
    match words {
        [] => None,
        [count, rest @ ..] => {
            if *count <= rest.len() {
                Some(rest.split_at(*count))
            } else {
                None
            }
        }
    }
}
