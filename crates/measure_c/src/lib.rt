// For the benchmark alone: exports the function of the crate `measure`, and states the same.
#![tactic(auto)]

ghost use Rattle.std.specs.Prelude.{◌≡◌};
ghost use Rattle.measure.specs.Digest.{measured_of};

use measure::Measured;

#[unsafe(no_mangle)]
pub extern "C" fn measure_finds(section: &[u8], address: u64, pcs: &[u64]) -> Measured
    ensures { result ≡ measured_of section.now address pcs.now }
{
    measure::measure_finds(section, address, pcs)
}
