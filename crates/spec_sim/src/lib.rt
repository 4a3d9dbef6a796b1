//! The specification of the schedule: as definitions which event of a script is next, and the script's history.
#![tactic(auto)]
