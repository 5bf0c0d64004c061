//! What a configuration says.
ghost use Rattle.std.specs.Prelude.{◌≡◌};
ghost use Rattle.check_config.specs.Config.{empty};

use squawk_run::Words;
use std::alloc::Global;

/// What a configuration says.
#[derive(Debug, Drop)]
pub struct Config {
    /// The rules and hazards that are left out, by their names.
    pub excluded_rules: Words,
    /// The rules and hazards that are put in, by their names.
    pub included_rules: Words,
    /// Patterns of the paths that are left out, as `path_pattern` reads them.
    pub excluded_paths: Words,
    /// The parts of the version of PostgreSQL, as they are written: none to three.
    pub pg_version: Words,
    /// Whether a migration runs in a transaction that was begun before it.
    pub assume_in_transaction: bool,
}

impl Config {
    /// The configuration that says nothing.
    pub fn empty(alloc: Global) -> Config
        ensures { result ≡ empty }
    {
        Config {
            excluded_rules: Words::new(alloc),
            included_rules: Words::new(alloc),
            excluded_paths: Words::new(alloc),
            pg_version: Words::new(alloc),
            assume_in_transaction: false,
        }
    }
}
