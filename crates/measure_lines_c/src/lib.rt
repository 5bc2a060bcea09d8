// For the benchmark alone: exports the function of the crate `measure_lines`, and states the same.
#![tactic(auto)]

ghost use Rattle.std.specs.Prelude.{◌≡◌};
ghost use Rattle.measure_lines.specs.Listed.{listed_of};

use measure::Measured;

#[unsafe(no_mangle)]
pub extern "C" fn measure_listing(section: &[u8]) -> Measured
    ensures { result ≡ listed_of section.now }
{
    measure_lines::measure_listing(section)
}
