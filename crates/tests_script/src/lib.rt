//! Tests of tables, the text of calls and scripts. They are a crate of their own, since a crate with tests is proved a second
//! time with them.
#![tactic(auto)]

#[cfg(test)]
mod handlers;
#[cfg(test)]
mod scripts;
#[cfg(test)]
mod words;
