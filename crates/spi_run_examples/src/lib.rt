//! Examples of the public calls that runs, audits and knowledge have, each with what it gives.
#![tactic(auto)]

#[cfg(test)]
mod tests;
