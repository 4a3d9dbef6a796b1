ghost use Rattle.std.specs.Prelude.{◌≡◌, ◌<◌, ◌^◌, IfOk, OnOk};
ghost use Rattle.spec_udp.specs.Settling.{UdpAtRest};
ghost use Rattle.e_udp.specs.Does.{side};
ghost use Rattle.spec_node.specs.declared.event.NodeEv.TheVariants.{Tick as Ticked};
ghost use Rattle.spec_node.specs.Progress.{timed_out};
ghost use Rattle.spec_node.specs.NodeStep.{node_step};
ghost use Rattle.n_node.specs.Plain.{plain};
ghost use Rattle.n_node.specs.Coming.{Moves};

use crate::handlers::make_due;
use crate::told::Turn;
use crate::{Parts, Told};
use it_types::{Ans, NoMemory, Out};
use std::alloc::Global;

impl Parts {
    /// A tick of the node's clock: the cyclic handlers that come due at it are due, and then all calls end whose deadline is at or
    /// before it.
    pub(crate) fn tick(&mut self, alloc: Global) -> Result<Out, NoMemory>
        requires rest { UdpAtRest (side self.old.udps self.old.pend) }
        requires now { self.old.kernel.clock.now < 2 ^ 59 }
        ensures { IfOk result (λ o. node_step (plain self.old) Ticked ≡ (plain self.new, o)) }
    {
        let before = self.kernel.running();
        let cyclics = self.kernel.tick();
        make_due(&mut self.pend, cyclics.as_slice())?;
        let mut told = Told::nothing(alloc);
        self.end_past(alloc, &mut told)?;
        let turn = Turn::between(before, self.kernel.running());
        told.out(alloc, Ans::Quiet, turn)
    }

    /// Ends all calls whose deadline is at or before now, by rising number (µITRON4.0 section 2.1, time-outs; 4.2,
    /// `dly_tsk`).
    fn end_past(&mut self, alloc: Global, told: &mut Told) -> Result<(), NoMemory>
        requires { UdpAtRest (side self.old.udps self.old.pend) }
        ensures { OnOk result (Moves self.old told.old self.new told.new timed_out) }
    {
        while let Some(end) = self.kernel.due() {
            self.take_kernel_end(alloc, told, &end)?;
        }
        Ok(())
    }
}
