//! Lines on standard error beside an answer.

use shown_texts::escaped;

/// Prints each of `warnings` as a line on standard error.
pub(crate) fn warn(rt: &HostRuntime, warnings: &[String]) {
    for warning in warnings {
        // A failed write to standard error can't be reported anywhere.
        let _ = match escaped(rt.alloc(), warning) {
            Ok(shown) => eprintln!(rt; "feats: {shown}"),
            Err(_) => eprintln!(rt; "feats: out of memory for a warning"),
        };
    }
}

/// Says on standard error that `--tests` has its old meaning, if `is_old`. A failed write there can't be reported anywhere.
pub(crate) fn warn_of_tests(rt: &HostRuntime, is_old: bool) {
    if is_old {
        let _ = eprintln!(rt;
            "feats: `--tests` means `--command test` here, and will mean the targets of `cargo build --tests`: write --command"
        );
    }
}
