//! The specification of the trace: the text of a history's entries.
#![tactic(auto)]
