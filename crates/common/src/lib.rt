// Why an entry refuses; specs/ holds what the definitions of every crate say, proofs/ the laws about it.
#![tactic(auto)]

mod refusal;

pub use refusal::Refusal;
