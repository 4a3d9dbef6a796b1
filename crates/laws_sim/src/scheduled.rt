ghost use Rattle.spec_script.specs.declared.script.Script.{Script};
ghost use Rattle.spec_sim.specs.Schedule.{plan_of, opening};
ghost use Rattle.spec_sim.specs.Serial.{serial};
ghost use Rattle.laws_sim.specs.Scheduled.{FollowsSchedule};

/// Each event of a script's history is admitted, is the event of the first point of the schedule that applies, and has the
/// entry that the machine gives for it; nothing follows the stop.
#[tactic(auto, using(crate::proofs::Following::serial_follows))]
pub fn serial_is_scheduled()
    ensures { (s : Script) → FollowsSchedule (plan_of s) (opening s) (serial s) }
{}
