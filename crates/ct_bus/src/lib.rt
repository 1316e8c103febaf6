//! Devices: the registers of serial ports, timers and gpios, found by address.
//!
//! A bus is seen as where each device stands and the state that it is in; what an access gives and
//! leaves is a function of that state, of address, width and time. docs/use/machine.md tells the same in
//! prose.
#![tactic(auto)]

mod bus;
mod unit;

pub use bus::Bus;
