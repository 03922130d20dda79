//! What the help of a command ends with, and the help of words of several commands.

pub(crate) const PLAN_EXAMPLE: &str = "\
Example:
  cargo metadata --format-version 1 --all-features >metadata.json
  rustc --print cfg --crate-type proc-macro | grep -vx proc_macro >host.cfg
  feats plan --metadata metadata.json --host x86_64-unknown-linux-gnu=host.cfg -p server -F tls
The same as a summary, for tools that read those of guppy-summaries:
  feats plan --summary --metadata metadata.json --host x86_64-unknown-linux-gnu=host.cfg -p server -F tls
";

pub(crate) const WHY_EXAMPLE: &str = "\
Example, with the files of `feats plan --help`:
  feats why --metadata metadata.json --host x86_64-unknown-linux-gnu=host.cfg -p server libc/extra_traits
The same with every direct reason of each step:
  feats why --all --metadata metadata.json --host x86_64-unknown-linux-gnu=host.cfg -p server libc/extra_traits
A shortest chain of dependencies from each selected member to a package:
  feats why --routes --metadata metadata.json --host x86_64-unknown-linux-gnu=host.cfg -p server libc
";

pub(crate) const WHY_NOT_EXAMPLE: &str = "\
Example, with the files of `feats plan --help`:
  feats why-not --metadata metadata.json --host x86_64-unknown-linux-gnu=host.cfg -p server libc/extra_traits
";

pub(crate) const SPECS_EXAMPLE: &str = "\
Example, with the files of `feats plan --help`:
  feats specs --metadata metadata.json --host x86_64-unknown-linux-gnu=host.cfg
";

pub(crate) const LIST_EXAMPLE: &str = "\
Examples, with the files of `feats plan --help`:
  feats list --metadata metadata.json --host x86_64-unknown-linux-gnu=host.cfg -p server libc
  feats list --unused --metadata metadata.json --host x86_64-unknown-linux-gnu=host.cfg
";

pub(crate) const DUPLICATES_EXAMPLE: &str = "\
Examples, with the files of `feats plan --help`; the last plans each selected member alone too:
  feats duplicates --metadata metadata.json --host x86_64-unknown-linux-gnu=host.cfg --workspace
  feats duplicates --places --metadata metadata.json --host x86_64-unknown-linux-gnu=host.cfg --workspace
  feats duplicates --alone --metadata metadata.json --host x86_64-unknown-linux-gnu=host.cfg --workspace
";

pub(crate) const TREE_EXAMPLE: &str = "\
Examples, with the files of `feats plan --help`:
  feats tree --metadata metadata.json --host x86_64-unknown-linux-gnu=host.cfg -p server --depth 2
  feats tree --metadata metadata.json --host x86_64-unknown-linux-gnu=host.cfg -p server --invert libc
  feats tree --metadata metadata.json --host x86_64-unknown-linux-gnu=host.cfg -p server --edges features
";

pub(crate) const DOT_EXAMPLE: &str = "\
Example, with the files of `feats plan --help`:
  feats dot --metadata metadata.json --host x86_64-unknown-linux-gnu=host.cfg -p server | dot -Tsvg >server.svg
";

pub(crate) const REPORT_EXAMPLE: &str = "\
The data has the objects of `plan`, `why`, `list` and `specs`, which units depend on which, and the declarations between packages.
No `<`, `>` or `&` is in it.
`--format text` and `--format json` print the same.
Example, with the files of `feats plan --help`:
  feats report --metadata metadata.json --host x86_64-unknown-linux-gnu=host.cfg -p server >server.json
";

pub(crate) const CHECK_EXAMPLE: &str = "\
A policy has a rule on each line: `deny FEATURE [on TRIPLE]`, `require FEATURE` or `deny-duplicates SPEC`, each perhaps with `# REASON`.
A `*` in a name stands for any text.
Examples, with the files of `feats plan --help`; the second asks whether any choice of features of the members may break a `deny`:
  feats check --metadata metadata.json --host x86_64-unknown-linux-gnu=host.cfg -p server policy.txt
  feats check --every-choice --metadata metadata.json --host x86_64-unknown-linux-gnu=host.cfg policy.txt
";

pub(crate) const SLIM_EXAMPLE: &str = "\
Example, with the files of `feats plan --help`. Whether the code compiles after an edit isn't checked:
  feats slim --metadata metadata.json --host x86_64-unknown-linux-gnu=host.cfg -p server
With the manifests, edits of [workspace.dependencies] are tried too; `cargo feats` passes them:
  for MANIFEST in Cargo.toml */Cargo.toml; do cat \"$MANIFEST\"; printf '\\0'; done >manifests
  feats slim --member-manifests manifests --metadata metadata.json --host x86_64-unknown-linux-gnu=host.cfg -p server
";

pub(crate) const DIFF_EXAMPLE: &str = "\
Example, with the files of `feats plan --help`, and two outputs of `cargo metadata`, each with the root manifest of its workspace:
  feats diff old.json new.json --old-manifest old.toml --manifest Cargo.toml --host x86_64-unknown-linux-gnu=host.cfg -p server
Two builds of one workspace, whose words follow `--`:
  feats diff --metadata metadata.json --host x86_64-unknown-linux-gnu=host.cfg -- -p server -- -p server --all-features
";

/// The help of the resolver's option.
pub(crate) const RESOLVER_HELP: &str =
    "The version of the resolver: 1, 2 or 3; without it and --manifest 2";

/// The same for `diff`.
pub(crate) const DIFF_RESOLVER_HELP: &str = "\
The version of the resolver: 1, 2 or 3; without it OLD and NEW need --old-manifest and --manifest, and builds of one document have 2";

/// The help of the word FEATURE of `why`.
pub(crate) const WHY_FEATURE_HELP: &str = "\
SPEC/NAME, SPEC/dep:NAME, SPEC for the package itself, or a feature's name alone; `*` stands for any text in a name; if it names several things, each that is built is answered";

/// The help of the word FEATURE of `why-not`.
pub(crate) const FEATURE_HELP: &str = "\
SPEC/NAME, SPEC/dep:NAME, SPEC for the package itself, or a feature's name alone; `*` stands for any text in a name";
