// The formats of channel lists that GSM 04.08 has, each a pile.
#![tactic(auto)]

pub mod bitmap0;
pub mod variable;
