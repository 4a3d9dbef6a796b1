ghost use Rattle.std.specs.Prelude.{◌≡◌, IfOk};
ghost use Rattle.spec_udp.specs.Arrival.{arrive};
ghost use Rattle.spec_udp.specs.Settling.{UdpAtRest};
ghost use Rattle.e_udp.specs.Does.{Does, no_number, side};
ghost use Rattle.spec_node.specs.declared.event.NodeEv.TheVariants.{Arrive as Arrived};
ghost use Rattle.spec_node.specs.NodeStep.{node_step};
ghost use Rattle.n_node.specs.Callers.{TellWho, all_receives};
ghost use Rattle.n_node.specs.Plain.{plain};

use crate::callers::receives;
use crate::told::Turn;
use crate::{Parts, Told};
use e_pend::Pend;
use e_udp::Udps;
use it_types::{Ans, List, NoMemory, Out};
use std::alloc::Global;

/// The bytes of a packet reach the network part: where they are no datagram for it, they are silently dropped.
fn receive(
    alloc: Global,
    udps: &mut Udps,
    pend: &mut Pend,
    bytes: &[u8],
    now: u64,
) -> Result<Out, NoMemory>
    requires { UdpAtRest (side udps.old pend.old) }
    ensures { IfOk result (λ o. Does (side udps.new pend.new) no_number o (arrive (side udps.old pend.old) bytes.now)) }
{
    match net_ip4::decode(bytes) {
        Ok(datagram) => udps.arrive(alloc, pend, &datagram, now),
        Err(_) => Ok(Out {
            ans: Ans::Quiet,
            ends: List::new(alloc),
            marks: List::new(alloc),
            packs: List::new(alloc),
        }),
    }
}

impl Parts {
    /// The bytes of a packet reach the node.
    pub(crate) fn arrive(&mut self, alloc: Global, bytes: &[u8]) -> Result<Out, NoMemory>
        requires rest { UdpAtRest (side self.old.udps self.old.pend) }
        requires told { TellWho (all_receives self.old.pend) (arrive (side self.old.udps self.old.pend) bytes.now).endings.ends }
        ensures { IfOk result (λ o. node_step (plain self.old) (Arrived bytes.now) ≡ (plain self.new, o)) }
    {
        let before = self.kernel.running();
        let now = self.kernel.now();
        let callers = receives(&self.pend);
        let Parts { udps, pend, .. } = self;
        let out = receive(alloc, udps, pend, bytes, now)?;
        let mut told = Told::nothing(alloc);
        let ans = self.take_net(alloc, &mut told, callers.as_slice(), out)?;
        let turn = Turn::between(before, self.kernel.running());
        told.out(alloc, ans, turn)
    }
}
