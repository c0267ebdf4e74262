// The Gregorian calendar: which dates and times are real, and the instant of each.
#![tactic(auto)]

mod days;
mod gregorian;
mod instants;

pub use gregorian::{Calendar, is_real};
pub use instants::{InstantError, instant_of};
