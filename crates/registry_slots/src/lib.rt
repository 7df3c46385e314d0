//! Slots for registered entries, by their deadlines, and orders of these slots.
#![tactic(auto)]

mod alikes;
mod orders;
mod slots;

pub use alikes::Alikes;
pub use orders::{
    By, Spot, alike_beside, find_slot, keep_held, place_of, put_in, stand_of, take_out,
};
pub use slots::Slots;
