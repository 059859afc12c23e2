//! The version of the programs of this repository. It is defined only here.

/// The version, as `desk --version` and the manual pages print it.
pub(crate) const VERSION: &str = "2.4";
