//! Answers copied to a caller's buffer.
ghost use Rattle.std.specs.Prelude.{◌≡◌, length};
ghost use Rattle.feature_graph_c.specs.binary.Records.{written};

/// Writes `answer` to the beginning of `out` if it fits, and returns its length. If it doesn't fit, `out` is unchanged.
pub fn write_answer(answer: &[u8], out: &mut [u8]) -> usize
    ensures length { result ≡ length answer.now }
    ensures out { out.new ≡ written answer.now out.old }
{
    let length = answer.len();
    if length <= out.len() {
        out[..length].copy_from_slice(answer);
    }
    length
}
