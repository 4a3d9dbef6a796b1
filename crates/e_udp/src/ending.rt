ghost use Rattle.std.specs.Prelude.{IfOk};
ghost use Rattle.spec_udp.specs.Outside.{ended};
ghost use Rattle.spec_udp.specs.Settling.{UdpAtRest};
ghost use Rattle.e_udp.specs.Does.{Does, no_number, side};

use crate::Udps;
use crate::telling::ending;
use e_pend::Pend;
use it_types::{Ans, CallNo, Er, NoMemory, Out};
use std::alloc::Global;

impl Udps {
    /// The call of this number, which waits at an end point, ends with this code, by its time-out, a release or its task's end
    /// (µITRON4.0 section 2.1). Where no call of this number waits, nothing happens.
    pub fn end(
        &mut self,
        alloc: Global,
        pend: &mut Pend,
        no: CallNo,
        code: Er,
        _now: u64,
    ) -> Result<Out, NoMemory>
        requires rest { UdpAtRest (side self.old pend.old) }
        ensures does { IfOk result (λ o. Does (side self.new pend.new) no_number o (ended (side self.old pend.old) no code)) }
        ensures rest { IfOk result (λ _. UdpAtRest (side self.new pend.new)) }
    {
        ending(alloc, pend, no, code, &[], Ans::Quiet)
    }
}
