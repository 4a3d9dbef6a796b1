//! Worked histories of the kernel and of each of its parts, checked by computation. They are a crate of their own, since a crate with
//! tests is proved a second time with them.
#![tactic(auto)]
