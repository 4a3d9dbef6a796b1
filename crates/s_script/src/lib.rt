//! Scripts as text: a script is read with the first wrong line and its cause, and printed in the one form that is read back.
#![tactic(auto)]

mod conf;
mod declaration;
mod draft;
mod line;
mod lines;
mod owner;
mod print;
mod ranges;
mod read_bad;
mod reader;
mod sending;

pub use conf::conf_of;
pub use print::print_into;
pub use read_bad::{ReadBad, Why};
pub use reader::{first_wrong, printing, read, reading};
