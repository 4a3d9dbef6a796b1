//! Tests of the whole kernel. They are a crate of their own, since a crate with tests is proved a second time with them.
#![tactic(auto)]

#[cfg(test)]
mod kernel;
#[cfg(test)]
mod opening;
