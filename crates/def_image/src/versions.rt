//! What differs from version to version, by the number of the version.

ghost use Rattle.std.specs.Prelude.{◌≡◌};
ghost use Rattle.std.specs.Int.{is_in_range};
ghost use Rattle.def_profile.specs.Versions as versions;
ghost use Rattle.def_image.specs.Sizes as sizes;

use crate::format::NUMBER;
use def_profile::limits::{
    LEAST_SWEEP_RATE, MOST_RAM, MOST_RAM_2, MOST_SWEEP_RATE, MOST_THREADS, MOST_THREADS_2,
    SWEEP_RATE,
};

/// Bytes of RAM, at most.
pub fn most_ram(version: u64) -> u32
    ensures { result ≡ versions.most_ram version }
{
    if version == 1 { MOST_RAM } else { MOST_RAM_2 }
}

/// Threads, at most.
pub fn most_threads(version: u64) -> u32
    ensures { result ≡ versions.most_threads version }
{
    if version == 1 {
        MOST_THREADS
    } else {
        MOST_THREADS_2
    }
}

/// Whether a slice of the revoker may pass so many granules.
pub fn is_sweep_rate(version: u64, granules: u64) -> bool
    ensures { result
        ≡ is_in_range (versions.least_sweep version) (versions.most_sweep version) granules }
{
    if version == 1 {
        SWEEP_RATE as u64 <= granules && granules <= SWEEP_RATE as u64
    } else {
        LEAST_SWEEP_RATE as u64 <= granules && granules <= MOST_SWEEP_RATE as u64
    }
}

/// How many bytes of the header have the sweep rate.
pub fn rate_size(version: u64) -> u32
    ensures { result ≡ sizes.rate_size version }
{
    if version == 1 { 0 } else { NUMBER }
}
