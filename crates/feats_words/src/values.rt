//! The values of options.
ghost use Rattle.std.specs.Prelude.{◌≡◌, IfOk};
ghost use Rattle.clap.specs.Words.{found_of, rows_of};
ghost use Rattle.feats_words.specs.Requests as spec;
ghost use Rattle.feats_words.specs.Requests.{texts};

use clap::ArgMatches;
use std::alloc::{AllocError, Global};

/// Returns a list of the texts of `given`.
pub(crate) fn copied<'a>(alloc: Global, given: &[&'a str]) -> Result<Vec<&'a str>, AllocError>
    ensures { IfOk result (λ copies. texts copies.items ≡ texts given.now) }
{
    let mut copies = Vec::new(alloc);
    copies.extend_from_slice(given)?;
    Ok(copies)
}

/// Returns the values of an option.
pub(crate) fn values<'a>(
    alloc: Global,
    matches: &ArgMatches<'a>,
    name: &str,
) -> Result<Vec<&'a str>, AllocError>
    ensures { IfOk result (λ values. texts values.items ≡ spec.values name.now (rows_of (found_of matches.now))) }
{
    match matches.get_strs(name) {
        Some(values) => copied(alloc, values),
        None => Ok(Vec::new(alloc)),
    }
}

/// Returns whether an option without a value is given.
pub(crate) fn is_given(matches: &ArgMatches<'_>, name: &str) -> bool
    ensures { result ≡ spec.is_given name.now (rows_of (found_of matches.now)) }
{
    match matches.get_str(name) {
        Some(value) => value == "true",
        None => false,
    }
}
