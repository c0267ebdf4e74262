// Numbers in the columns of a text: blanks, perhaps a minus, digits, and where there is a point its decimals.
#![tactic(auto)]

mod reading;

pub use reading::{Number, decimal_of, whole_of};
