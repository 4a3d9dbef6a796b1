//! Tests of the windows of a connection. They are a crate of their own, since a crate with tests is proved a second time with
//! them.
#![tactic(auto)]

#[cfg(test)]
mod receiving;
#[cfg(test)]
mod sending;
