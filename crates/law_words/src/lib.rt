//! Laws over the definitions of capability words. Each is a public function with an empty body,
//! whose contract is the law; the lemmas stand in proofs/ and are cited from there by the laws of
//! the machine.
#![tactic(auto)]

mod operations;
mod rounding;
mod rows;
mod sets;

pub use operations::{
    address_keeps_bounds, derivation_makes, jumps_open_and_link, loads_attenuate,
    operations_narrow, results_settle, seals_need_keys, tags_stay_away,
};
pub use rounding::{bounds_are_blocks, exact_where_short, least_exponent, rounding_holds};
pub use rows::{
    bits_are_permissions, least_bounds_rows, removing_load_data, rights_are_spelled,
    roots_hold_all, sealing_rows,
};
pub use sets::{normal_holds, spelling_holds, within_holds};
