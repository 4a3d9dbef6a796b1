//! The specification of scripts: their plain data, and as definitions their lines, their ranges, their printed form, and what a
//! body does line by line.
#![tactic(auto)]

mod decl;
mod script;
mod script_line;
mod want;

pub use decl::{Body, Decl, Line};
pub use script::{NodeDecl, Script};
pub use script_line::{NodeLine, ScriptLine};
pub use want::Want;
