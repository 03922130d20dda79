//! The rows of the examples, as texts: the fields of a line are separated by tabs.

/// A weak item: `smallvec?/union` turns `union` on, but not `smallvec`.
pub const WEAK_ITEM: &str = "package\tmain\tworkspace
feature\tsmallvec\tdep:smallvec\tfoo
feature\tsmallvec-union\tsmallvec?/union
feature\tfoo
dep\tsmallvec\tsv\tnormal\toptional\t*\tnodefault
package\tsv\texternal
feature\tunion
";

/// The same with a cycle: the tests of the dependency need the package.
pub const CYCLE_BY_TESTS: &str = "package\tmain\tworkspace
feature\tsmallvec\tdep:smallvec\tfoo
feature\tsmallvec-union\tsmallvec?/union
feature\tfoo
dep\tsmallvec\tsv\tnormal\toptional\t*\tnodefault
package\tsv\texternal
feature\tunion
dep\tm\tmain\tdev\trequired\t*\tnodefault\tsmallvec
";

/// One name for two packages, one of them for only one platform.
pub const TWO_PLATFORMS: &str = "package\tmain\tworkspace
feature\tserde\tdep:serde\tserde/std
dep\tserde\tserde_core\tnormal\toptional\t*\tnodefault
dep\tserde\tserde\tnormal\toptional\tcfg(any())\tnodefault
package\tserde_core\texternal
feature\tstd
package\tserde\texternal
feature\tstd
";

/// Two packages whose features turn each other on.
pub const TWO_CYCLES: &str = "package\tp\tworkspace
feature\ta\tb
feature\tb\ta
package\tq\tworkspace
feature\ta\tb
feature\tb\ta
";

/// An application with default features.
pub const DEFAULTS: &str = "package\tapp\tworkspace
feature\tdefault\tjson
feature\tjson\tdep:serde
feature\tcolor
dep\tserde\tserde\tnormal\toptional\t*\tdefault
dep\tlog\tlog\tnormal\trequired\t*\tnodefault
package\tserde\texternal
feature\tdefault\tstd
feature\tstd
package\tlog\texternal
feature\tstd
";
