//! Images as the definitions have them, computed: the samples' bytes, entries and boot state, and of
//! each fault an altered image with the place at which it is found. Functions with empty bodies whose
//! contracts are the laws.
#![tactic(auto, unfolding(def_boot::specs::Boot::boot_state, def_boot::specs::Contents::boot_cap, def_boot::specs::Contents::boot_granules, def_boot::specs::Contents::part, def_boot::specs::Contents::region_at, def_boot::specs::Entries::entry_rows, def_boot::specs::Gates::entries_of, def_boot::specs::Gates::gates_of, def_boot::specs::Made::caps_at_boot, def_image::specs::Checks::first, def_image::specs::Checks::walked, def_image::specs::Indexes::index_checks, def_image::specs::Limits::compartment_limits_by, def_image::specs::Limits::device_limits, def_image::specs::Limits::export_limits, def_image::specs::Limits::gate_limits, def_image::specs::Limits::header_limits, def_image::specs::Limits::library_limits_by, def_image::specs::Limits::limit_checks, def_image::specs::Limits::name_checks, def_image::specs::Limits::own_slot_limits, def_image::specs::Limits::row_limits, def_image::specs::Limits::sealed_limits, def_image::specs::Limits::shared_limits, def_image::specs::Limits::slot_limits, def_image::specs::Limits::thread_limits_by, def_image::specs::Lying::region_checks, def_image::specs::Regions::regions_of, def_image::specs::Rights::right_checks, def_image::specs::Spelling::image_bytes, def_image::specs::Spelling::raw_of, def_image::specs::Spelling::spelled, def_reach::specs::Roots::gate_for, def_reach::specs::Roots::root_of, def_words::specs::Authority::cap_bounds, def_words::specs::Capability::masked, def_words::specs::Capability::with_address, def_words::specs::Capability::with_exact_bounds, def_words::specs::Derive::derive, def_words::specs::Derive::executable_root, def_words::specs::Derive::memory_root, def_words::specs::Derive::sealing_root, def_words::specs::LeastBounds::exponent_for, def_words::specs::Permissions::bit, def_words::specs::Permissions::cap_perms, def_words::specs::Permissions::form_of, def_words::specs::Permissions::normal_set, def_words::specs::Permissions::packed, def_words::specs::Permissions::set_where, def_words::specs::Permissions::unpacked, def_words::specs::Seals::cap_seal))]

mod altered;
mod altered_whole;
mod board;
mod tiny;
mod whole;

pub use altered::tiny_altered;
pub use altered_whole::whole_altered;
pub use board::board_stands;
pub use tiny::tiny_stands;
pub use whole::whole_stands;
