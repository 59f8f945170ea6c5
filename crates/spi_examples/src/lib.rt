//! Examples of the public calls of the crates, each with what it gives.
#![tactic(auto)]

#[cfg(test)]
mod tests;
