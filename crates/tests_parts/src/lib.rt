//! Tests of the parts of the kernel. They are a crate of their own, since a crate with tests is proved a second time with them.
#![tactic(auto)]

#[cfg(test)]
mod clock;
#[cfg(test)]
mod data_queues;
#[cfg(test)]
mod flags;
#[cfg(test)]
mod semaphores;
#[cfg(test)]
mod tasks;
