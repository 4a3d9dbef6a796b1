ghost use Rattle.std.specs.Prelude.{◌≡◌};
ghost use Rattle.it_types.specs.declared.handler.FnCode.{FnCode as AFnCode};
ghost use Rattle.spec_udp.specs.Rows.{slot_of};

use it_types::{CepId, FnCode};
use spec_pend::{Part, Slot};

/// Where the receive of an end point waits.
pub(crate) fn receive_slot(cep: CepId) -> Slot
    ensures { result ≡ slot_of cep AFnCode.UdpRcv }
{
    Slot {
        udp: true,
        cep,
        part: Part::Recv,
        func: FnCode::UdpRcv,
    }
}

/// Where the send of an end point waits.
pub(crate) fn send_slot(cep: CepId) -> Slot
    ensures { result ≡ slot_of cep AFnCode.UdpSnd }
{
    Slot {
        udp: true,
        cep,
        part: Part::Send,
        func: FnCode::UdpSnd,
    }
}

/// Where a datagram comes of which the end point's callback routine is told.
pub(crate) fn event_slot(cep: CepId) -> Slot
    ensures { result ≡ slot_of cep AFnCode.UdpEvent }
{
    Slot {
        udp: true,
        cep,
        part: Part::Recv,
        func: FnCode::UdpEvent,
    }
}
