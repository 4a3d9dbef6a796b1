//! The send and the receive window of a connection: the bytes that are committed and not acknowledged, and the bytes that have
//! come and are not taken. The memory of a window is taken at its opening, and never again.
#![tactic(auto)]

mod key;
mod receive;
mod ring;
mod send;

pub use key::WinKey;
pub use receive::RecvWin;
pub use send::SendWin;
