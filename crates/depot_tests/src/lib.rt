// Worked lines of plans, and text of octets, as tests.
#![tactic(auto)]

#[cfg(test)]
mod tests;
