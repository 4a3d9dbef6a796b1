ghost use Rattle.std.specs.Prelude.{◌≡◌, false, IfOk};
ghost use Rattle.spec_script.specs.Configuration.{conf_of};
ghost use Rattle.spec_script.specs.Ranges.{IsGood};
ghost use Rattle.spec_world.specs.History.{is_stop};
ghost use Rattle.spec_sim.specs.Serial.{serial};

use crate::play::Play;
use it_types::{Event, NoMemory};
use spec_script::Script;
use std::alloc::Global;
use w_world::World;

fn is_stop(event: &Event) -> bool
    ensures { result ≡ is_stop event.now }
{
    matches!(event, Event::Stop)
}

/// Runs the script: its two nodes and the link between them, from their opening, up to the stop of the schedule or until the history
/// is full. Without memory there is no world.
pub fn sim(alloc: Global, script: &Script) -> Result<World, NoMemory>
    requires { IsGood script.now }
    ensures log { IfOk result (λ w. w.log ≡ serial script.now) }
    ensures conf { IfOk result (λ w. w.conf ≡ conf_of script.now) }
    ensures lives { IfOk result (λ w. w.ended ≡ false) }
{
    let mut play = Play::open(alloc, script)?;
    let mut going = true;
    while going && !play.world().full() {
        let event = play.next(alloc, script)?;
        going = !is_stop(&event);
        play.step(alloc, script, event)?;
    }
    Ok(play.into_world())
}
