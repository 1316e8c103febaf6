//! Images of one sample that differ in a compartment's secret, of which a thread that can't see the secret is told the
//! same. Functions with empty bodies whose contracts are the laws.
#![tactic(auto, unfolding(def_boot::specs::Boot::boot_state, def_boot::specs::Boot::image_of, def_boot::specs::Contents::boot_cap, def_boot::specs::Contents::boot_granules, def_boot::specs::Contents::part, def_boot::specs::Contents::region_at, def_boot::specs::Entries::entry_rows, def_boot::specs::Gates::entries_of, def_boot::specs::Gates::gates_of, def_boot::specs::Made::caps_at_boot, def_image::specs::Checks::first, def_image::specs::Checks::walked, def_image::specs::Indexes::index_checks, def_image::specs::Limits::compartment_limits_by, def_image::specs::Limits::device_limits, def_image::specs::Limits::export_limits, def_image::specs::Limits::gate_limits, def_image::specs::Limits::header_limits, def_image::specs::Limits::library_limits_by, def_image::specs::Limits::limit_checks, def_image::specs::Limits::name_checks, def_image::specs::Limits::own_slot_limits, def_image::specs::Limits::row_limits, def_image::specs::Limits::sealed_limits, def_image::specs::Limits::shared_limits, def_image::specs::Limits::slot_limits, def_image::specs::Limits::thread_limits_by, def_image::specs::Lying::region_checks, def_image::specs::Regions::regions_of, def_image::specs::Rights::right_checks, def_image::specs::Spelling::image_bytes, def_image::specs::Spelling::raw_of, def_image::specs::Spelling::spelled, def_reach::specs::Roots::gate_for, def_reach::specs::Roots::root_of, def_words::specs::Authority::cap_bounds, def_words::specs::Capability::masked, def_words::specs::Capability::with_address, def_words::specs::Capability::with_exact_bounds, def_words::specs::Derive::derive, def_words::specs::Derive::executable_root, def_words::specs::Derive::memory_root, def_words::specs::Derive::sealing_root, def_words::specs::LeastBounds::exponent_for, def_words::specs::Permissions::bit, def_words::specs::Permissions::cap_perms, def_words::specs::Permissions::form_of, def_words::specs::Permissions::normal_set, def_words::specs::Permissions::packed, def_words::specs::Permissions::set_where, def_words::specs::Permissions::unpacked, def_words::specs::Seals::cap_seal))]

ghost use Rattle.std.specs.Prelude.{◌≡◌, ◌<◌, ◌≤◌, ◌+◌, ◌-◌, ℕ, List, None, length};
ghost use Rattle.def_boot.specs.Boot.{boot_state, image_of, platform_of};
ghost use Rattle.def_image.specs.Accepted.{IsFaultless};
ghost use Rattle.def_image.specs.Checks.{first};
ghost use Rattle.def_image.specs.Indexes.{index_checks};
ghost use Rattle.def_image.specs.Limits.{limit_checks};
ghost use Rattle.def_image.specs.Lying.{region_checks};
ghost use Rattle.def_image.specs.Rights.{right_checks};
ghost use Rattle.def_image.specs.Spelling.{image_bytes, raw_of};
ghost use Rattle.def_machine.specs.Platform.{Platform};
ghost use Rattle.def_machine.specs.State.{State};
ghost use Rattle.def_memory.specs.declared.Granule.{Granule};
ghost use Rattle.def_memory.specs.Accesses.{byte_at};
ghost use Rattle.def_secrecy.specs.Runs.{Moment};
ghost use Rattle.def_secrecy.specs.Turns.{TakesTurns, TellsAlike};
ghost use Rattle.def_secrecy.specs.View.{InView, UnseenBytes};
ghost use Rattle.def_step.specs.declared.Event.{Event};
ghost use Rattle.def_step.specs.Events.{happens};
ghost use Rattle.law_secret_samples.specs.Walls.{prowler, secret_at, walls};

/// Nothing is asked of the images that fails, whatever the secret is, and each has 652 bytes.
pub fn walls_stand()
    ensures size { (n : ℕ) → length (image_bytes (walls n)) ≡ 652 }
    ensures limits { (n : ℕ) → first (limit_checks (raw_of (walls n))) ≡ None }
    ensures regions { (n : ℕ) → first (region_checks (walls n)) ≡ None }
    ensures indexes { (n : ℕ) → first (index_checks (walls n)) ≡ None }
    ensures rights { (n : ℕ) → first (right_checks (walls n)) ≡ None }
{}

/// An image's record of what it booted is read by no event: machines whose images differ in that alone do the same, since
/// RAM is the state's.
pub fn boots_unread()
    ensures { (b : Platform) (gs : List Granule) (s : State) (e : Event)
        → happens (record b { image = record b.image { boot = gs } }) s e ≡ happens b s e }
{}

/// Two images whose keeper has one byte or any other as its secret, with all else the same. Each is accepted
/// (`accepted`), and boots its secret at one address (`secret`), which the prowler's thread doesn't see (`unseen`), while
/// it sees its own globals (`seen`). Whatever events come to the two machines from their boots, until it ends the prowler's
/// thread sees the same of both, and its events tell the same in both, the trap by which it ends too (`untold`). What is
/// asked of the events: between those that come to both, the keeper's thread acts in each run by events of its own, as
/// many as it likes, whatever these do with the secret, as long as what is public is the same when it has acted.
pub fn secrets_stay_untold()
    ensures accepted { (n : ℕ) → n < 256 → IsFaultless (walls n) }
    ensures secret { (n : ℕ) → n < 256
        → byte_at (boot_state (walls n)).granules (secret_at - (walls n).ram) ≡ n }
    ensures unseen { (n : ℕ)
        → UnseenBytes (image_of (walls n)) (boot_state (walls n)) 0 secret_at 1 }
    ensures seen { (n x : ℕ) → prowler.globals ≤ x → x < prowler.globals + prowler.globals_length
        → InView (image_of (walls n)) (boot_state (walls n)) 0 x }
    ensures untold { (n m : ℕ) (ms : List Moment) → n < 256 → m < 256
        → TakesTurns (platform_of (walls n)) (platform_of (walls m)) 0 1
        (boot_state (walls n)) (boot_state (walls m)) ms
        → TellsAlike (platform_of (walls n)) (platform_of (walls m)) 0
        (boot_state (walls n)) (boot_state (walls m)) ms }
{
    walls_stand();
}
