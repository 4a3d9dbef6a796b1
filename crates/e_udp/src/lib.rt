//! UDP end points of a node (ITRON TCP/IP API, the service calls on UDP), to which the node's calls that wait are lent.
#![tactic(auto)]

mod arriving;
mod canceling;
mod creating;
mod deleting;
mod ending;
mod point;
mod points;
mod ports;
mod receiving;
mod refusals;
mod sending;
mod slots;
mod telling;
mod udps;

#[doc(hidden)]
pub use point::Point;
pub use udps::Udps;
