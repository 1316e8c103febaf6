//! What is asked of the header.

ghost use Rattle.std.specs.Prelude.{◌≡◌};
ghost use Rattle.def_image.specs.Checks as checks;
ghost use Rattle.def_image.specs.Limits as spec;

use crate::checks::{check, earlier_of, first, name_checks, outside};
use ct_image_fields::RawImage;
use def_image::Check;
use def_image::versions::{is_sweep_rate, most_ram, most_threads, rate_size};
use def_profile::layout::REGION_UNIT;
use def_profile::limits::{
    LEAST_RAM, MOST_COMPARTMENTS, MOST_DEVICES, MOST_LIBRARIES, MOST_OBJECTS, MOST_QUANTUM, RAM_END,
};

/// Whether RAM of this base and size is too small, too large, no multiple of 16, or ends too high.
fn is_missized(version: u32, ram: u32, size: u32) -> bool
    ensures { result ≡ spec.missized version ram size }
{
    outside(LEAST_RAM, most_ram(version as u64), size)
        || size % REGION_UNIT != 0
        || (RAM_END as u64) < ram as u64 + size as u64
}

/// What is asked of the counts.
fn count_checks(raw: &RawImage) -> [Check; 6]
    ensures { result ≡ spec.count_limits raw.now }
{
    let threads = most_threads(raw.version as u64) as usize;
    [
        check(8, (MOST_DEVICES as usize) < raw.devices.len()),
        check(12, (MOST_OBJECTS as usize) < raw.shared.len()),
        check(16, (MOST_OBJECTS as usize) < raw.sealed.len()),
        check(20, (MOST_COMPARTMENTS as usize) < raw.compartments.len()),
        check(24, (MOST_LIBRARIES as usize) < raw.libraries.len()),
        check(28, threads < raw.threads.len()),
    ]
}

/// What is asked of the numbers and of the firmware's name.
#[tactic(auto, unfolding(def_image::specs::Limits::name_checks))]
fn number_checks(raw: &RawImage) -> [Check; 6]
    ensures { result ≡ spec.number_limits raw.now }
{
    let version = raw.version;
    let ram = raw.ram;
    let [name, padding] = name_checks(52 + rate_size(version as u64), false, false, &raw.name);
    [
        check(32, outside(1, MOST_QUANTUM, raw.quantum)),
        check(36, ram % REGION_UNIT != 0),
        check(40, is_missized(version, ram, raw.size)),
        check(52, !is_sweep_rate(version as u64, raw.sweep as u64)),
        name,
        padding,
    ]
}

/// The first place at which the header fails.
#[tactic(auto, using(crate::proofs::Heads::header_first))]
pub(crate) fn header_limit(raw: &RawImage) -> Option<u32>
    ensures { result ≡ checks.first (spec.header_limits raw.now) }
{
    earlier_of(first(&count_checks(raw)), first(&number_checks(raw)))
}
