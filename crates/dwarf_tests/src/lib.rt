//! The library's tests, apart from it: a crate with tests is proved twice.
#![tactic(auto)]

#[cfg(test)]
mod tests;
