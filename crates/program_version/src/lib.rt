//! The version of the programs.
#![tactic(auto)]

/// The version that `--version` prints. In a program that `build.py` builds, the commit of its
/// sources follows the number.
pub const VERSION: &str = "1.0.0";
