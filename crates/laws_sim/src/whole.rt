ghost use Rattle.std.specs.Prelude.{◌≡◌, true};
ghost use mathlib.Core.Logic.{◌⊎◌};
ghost use Rattle.spec_script.specs.declared.script.Script.{Script};
ghost use Rattle.spec_script.specs.Configuration.{conf_of};
ghost use Rattle.spec_world.specs.Sizes.{is_full};
ghost use Rattle.spec_world.specs.History.{ends_with_stop, IsRun};
ghost use Rattle.spec_sim.specs.Serial.{serial};

/// A script's history is a run of the machine from the opening of the script's configuration.
#[tactic(auto, using(crate::proofs::Ending::serial_runs))]
pub fn serial_is_a_run()
    ensures { (s : Script) → IsRun (conf_of s) (serial s) }
{}

/// A script's history ends with the stop, or is full.
#[tactic(auto, using(crate::proofs::Ending::serial_ending))]
pub fn serial_ends()
    ensures { (s : Script) → (ends_with_stop (serial s) ≡ true) ⊎ (is_full (serial s) ≡ true) }
{}
