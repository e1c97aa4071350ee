//! Reports that are made of a pass over objects.

ghost use Rattle.std.specs.Prelude.{◌≡◌};
ghost use Rattle.hprof_lines.specs.Passed.{stop_of_pass};

use hprof_engine::ProductFault;
use hprof_passes::PassFault;
use std::alloc::AllocError;

/// Returns the reason why a report stops if a pass stops before the first byte.
pub fn stop_of_pass<F>(stop: PassFault<AllocError, F>) -> PassFault<ProductFault, F>
    ensures { result ≡ stop_of_pass stop }
{
    match stop {
        PassFault::Sink(_) => PassFault::Sink(ProductFault::OutOfMemory),
        PassFault::Lost(fault) => PassFault::Lost(fault),
    }
}
