//! The configuration and the baseline of a request.
ghost use Rattle.std.specs.Prelude.{◌≡◌, ◌≤◌, IfErr, IfOk, option_map};
ghost use Rattle.check_setup.specs.SetUp.{IsRefusedSetup, IsSetUp, baseline_name};
ghost use Rattle.baseline_file.specs.devices.Contents.{KeepsContents};

use baseline_file::{
    BaselineFilter, Config, FileStore, LoadError, Request, load_config, load_filter,
};
use std::alloc::Global;

/// What is read before the files that are checked.
#[derive(Drop)]
pub struct Setup {
    /// The configuration.
    pub config: Config,
    /// What leaves the reports out that the baseline knows.
    pub filter: BaselineFilter,
}

// The name of the baseline that is read.
fn baseline_name(request: &Request) -> Option<&str>
    ensures { option_map (λ s. s.now) result ≡ baseline_name request.now }
{
    if request.write_baseline {
        return None;
    }
    match &request.baseline {
        Some(name) => Some(name.as_str()),
        None => None,
    }
}

/// The configuration and the baseline of a request. Where a baseline is written none is read. The error is that of the first file that
/// is refused.
pub fn load_setup<F: FileStore>(
    alloc: Global,
    files: &mut F,
    request: &Request,
) -> Result<Setup, LoadError>
    ensures loaded { IfOk result (IsSetUp (F.content files.old) request.now) }
    ensures refused { IfErr result (IsRefusedSetup (F.content files.old) (F.faults files.old) (F.faults files.new) request.now) }
    ensures kept { KeepsContents (F.content files.old) (F.content files.new) }
    ensures later { F.faults files.old ≤ F.faults files.new }
{
    match load_config(alloc, files, &request.config) {
        Err(error) => Err(error),
        Ok(config) => match load_filter(alloc, files, baseline_name(request)) {
            Err(error) => Err(error),
            Ok(filter) => Ok(Setup { config, filter }),
        },
    }
}
