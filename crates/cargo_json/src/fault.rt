//! The faults of a document and of the program `rows`.
ghost use Rattle.std.specs.Prelude.{◌≡◌, Some};
ghost use Rattle.cargo_json.specs.Faults.{place_text, read_fault, exit_status};

use byte_devices::ReadError;
use std::alloc::{AllocError, AllocFailed};
use std::fmt;
use thiserror::Error;

/// An object of the document, named by its indices in the enclosing lists, from 0.
#[derive(Clone, Copy, PartialEq, Eq, Debug)]
pub enum Place {
    /// The document itself.
    Document,
    /// `resolve`
    Resolve,
    /// `packages[package]`
    Package {
        package: usize,
    },
    /// `packages[package].dependencies[dependency]`
    Dependency {
        package: usize,
        dependency: usize,
    },
    /// `packages[package].targets[target]`
    Target {
        package: usize,
        target: usize,
    },
    /// `resolve.nodes[node]`
    Node {
        node: usize,
    },
    /// `resolve.nodes[node].deps[dep]`
    Dep {
        node: usize,
        dep: usize,
    },
    /// `resolve.nodes[node].deps[dep].dep_kinds[kind]`
    DepKind {
        node: usize,
        dep: usize,
        kind: usize,
    },
}

impl fmt::Display for Place {
    ghost output = { λ place. Some (place_text place) };

    /// Writes the path of the object, with a dot before the field's name.
    fn fmt<W: fmt::Write>(&self, f: &mut fmt::Formatter<W>) -> fmt::Result {
        match *self {
            Place::Document => Ok(()),
            Place::Resolve => write!(f, "resolve."),
            Place::Package { package } => write!(f, "packages[{package}]."),
            Place::Dependency {
                package,
                dependency,
            } => write!(f, "packages[{package}].dependencies[{dependency}]."),
            Place::Target { package, target } => {
                write!(f, "packages[{package}].targets[{target}].")
            }
            Place::Node { node } => write!(f, "resolve.nodes[{node}]."),
            Place::Dep { node, dep } => write!(f, "resolve.nodes[{node}].deps[{dep}]."),
            Place::DepKind { node, dep, kind } => {
                write!(f, "resolve.nodes[{node}].deps[{dep}].dep_kinds[{kind}].")
            }
        }
    }
}

/// The reason why a document has no rows.
#[derive(Debug, Drop, Error)]
pub enum DocumentFault {
    /// A field is missing, or has another type than expected.
    #[error("{place}{name}: missing or of another type")]
    Field {
        place: Place,
        name: &'static str,
    },
    /// The id of a package or of a node is that of an earlier one.
    #[error("{place}id: repeated")]
    Repeated {
        place: Place,
    },
    /// The id of a package is unknown.
    #[error("{place}{name}: no package {id:?}")]
    NoPackage {
        place: Place,
        name: &'static str,
        id: String,
    },
    /// A declaration matches more than one package.
    #[error("package {package:?}: dependency {name:?} is ambiguous")]
    Ambiguous {
        package: String,
        name: String,
    },
    /// One package depends on another under two names.
    #[error("package {package:?}: dependency on {target:?} is named {first:?} and {second:?}")]
    TwoNames {
        package: String,
        target: String,
        first: String,
        second: String,
    },
    /// A text contains a control character, which a row file can't contain.
    #[error("control character in {text:?}")]
    Control {
        text: String,
    },
    /// A platform is the text `*`, which a row uses for every platform.
    #[error("{place}target: \"*\" is no platform")]
    EveryPlatform {
        place: Place,
    },
    /// The document was made with `--no-deps`: `resolve` is null.
    #[error("resolve: null; the document was made with --no-deps")]
    NoDeps,
    #[error("out of memory")]
    Memory,
}

impl From<AllocError> for DocumentFault {
    ghost use Rattle.cargo_json.specs.declared.fault.DocumentFault.TheVariants.{Memory};

    ghost from_gives = { λ _ fault. fault ≡ Memory };

    fn from(_: AllocError) -> DocumentFault {
        DocumentFault::Memory
    }
}

impl<T: Drop> From<AllocFailed<T>> for DocumentFault {
    ghost use Rattle.cargo_json.specs.declared.fault.DocumentFault.TheVariants.{Memory};

    ghost from_gives = { λ _ fault. fault ≡ Memory };

    fn from(_: AllocFailed<T>) -> DocumentFault {
        DocumentFault::Memory
    }
}

/// The reason why there are no rows. Its `Display` is the line for standard error.
#[derive(Debug, Drop, Error)]
pub enum Fault {
    #[error("usage: rows [FILE]")]
    Usage,
    #[error("cannot read")]
    CannotRead,
    #[error("not UTF-8")]
    NotText,
    #[error("line {line}, column {column}: not JSON")]
    NotJson { line: usize, column: usize },
    #[error("{fault}")]
    Document { fault: DocumentFault },
    #[error("out of memory")]
    Memory,
    #[error("cannot write")]
    CannotWrite,
}

impl From<ReadError> for Fault {
    ghost from_gives = { λ error fault. fault ≡ read_fault error };

    fn from(error: ReadError) -> Fault {
        match error {
            ReadError::Failed => Fault::CannotRead,
            ReadError::Memory => Fault::Memory,
        }
    }
}

impl Fault {
    /// Returns the exit status: 2 for a fault of the command line, and 1 for every other.
    pub fn status(&self) -> u8
        ensures { result ≡ exit_status self.now }
    {
        match self {
            Fault::Usage => 2,
            _ => 1,
        }
    }
}
