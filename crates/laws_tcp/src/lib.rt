//! The theorems over one TCP connection, for every list of what can happen to it: segments that arrive, whatever they are, bytes that
//! are committed and taken, closing, aborting and the time, each with the emission that ends it.
#![tactic(auto)]

mod receiving;
mod resets;
mod sending;

pub use receiving::{received_bytes_are_counted, windows_are_never_taken_back};
pub use resets::resets_are_exact;
pub use sending::{positions_never_fall, what_goes_out_was_committed};
