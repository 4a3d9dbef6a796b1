//! Tests of the datagrams and segments, of the retransmission timer, of the UDP end points, and of the calls that wait. They are a crate
//! of their own, since a crate with tests is proved a second time with them.
#![tactic(auto)]

#[cfg(test)]
mod end_points;
#[cfg(test)]
mod ip4;
#[cfg(test)]
mod pending;
#[cfg(test)]
mod retransmission;
#[cfg(test)]
mod segments;
#[cfg(test)]
mod user_datagrams;
