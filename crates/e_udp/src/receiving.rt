ghost use Rattle.std.specs.Prelude.{◌≡◌, ◌≤◌, ◌<◌, ◌++◌, false, true, None, IfOk};
ghost use Rattle.it_types.specs.declared.id.EndPt.{EndPt as AEndPt};
ghost use Rattle.it_types.specs.declared.request.Req.{Req};
ghost use Rattle.it_types.specs.Callers.{is_nblk, is_poll};
ghost use Rattle.spec_lists.specs.Refusal.{first_refusal};
ghost use Rattle.spec_wire.specs.Octets.{u16_octets, u32_octets};
ghost use Rattle.spec_udp.specs.Receiving.{receive_bytes, receive_code};
ghost use Rattle.spec_udp.specs.Rows.{refusals, udp_call};
ghost use Rattle.spec_udp.specs.Settling.{UdpAtRest};
ghost use Rattle.e_udp.specs.Contexts.{context_of};
ghost use Rattle.e_udp.specs.Does.{Does, side};

use crate::Udps;
use crate::points::{is_wrong_id, point_at, routine_at, take_oldest, want};
use crate::refusals::is_untold;
use crate::slots::receive_slot;
use crate::telling::{alone, begin_and_end, code, is_waiting};
use byteorder::{BigEndian, ByteOrder};
use e_pend::Pend;
use it_types::{
    Ans, Bytes, CallNo, CepId, E_BOVR, E_ID, E_NOEXS, E_OBJ, E_PAR, E_TMOUT, EndPt, Er, NoMemory,
    Out, TaskId, Tmo, first_refusal,
};
use spec_pend::Who;
use std::alloc::Global;

// The most bytes that a call may ask for.
const GREATEST_LENGTH: u32 = 65280;

// The sender's address, 4 bytes, and its port, 2.
fn sender(from: EndPt) -> [u8; 6]
    ensures { result ≡ u32_octets from.addr ++ u16_octets from.port }
{
    let mut bytes = [0; 6];
    BigEndian::write_u32(&mut bytes, from.addr);
    BigEndian::write_u16(&mut bytes[4..], from.port);
    bytes
}

/// The code of a receive of so many bytes: the length of the data, or `E_BOVR` where it is longer.
pub(crate) fn receive_code(len: u32, load: &[u8]) -> Er
    requires { len ≤ 65280 }
    ensures { (from : AEndPt) → result ≡ receive_code len (record { from = from; load = load.now }) }
{
    if load.len() > len as usize {
        E_BOVR
    } else {
        Er(load.len() as i32)
    }
}

/// The bytes of a receive: the sender, and the first bytes of the data.
pub(crate) fn receive_bytes(
    alloc: Global,
    len: u32,
    from: EndPt,
    load: &[u8],
) -> Result<Bytes, NoMemory>
    ensures { IfOk result (λ bytes. bytes ≡ receive_bytes len (record { from = from; load = load.now })) }
{
    let wanted = load.len().min(len as usize);
    let mut bytes = Vec::from_slice(alloc, &sender(from))?;
    bytes.extend_from_slice(&load[..wanted])?;
    Ok(Bytes::from_vec(bytes))
}

impl Udps {
    /// Takes the oldest datagram of an end point, at most `len` bytes of its data, up to 65,280 (ITRON TCP/IP API, `udp_rcv_dat`):
    /// the answer has the sender's address, 4 bytes, and port, 2, before the data, and `E_BOVR` where data is cut off. Where
    /// no datagram has come, a poll is over with `E_TMOUT`, and any other call waits. With `nblk` the call is accepted
    /// under its number in any case, and the end point's callback routine is told of its end. `E_ID`: no such id;
    /// `E_NOEXS`: no end point; `E_PAR`: more bytes, or no routine to be told; `E_OBJ`: a receive waits there already. A
    /// refused call changes nothing.
    pub fn udp_rcv_dat(
        &mut self,
        alloc: Global,
        pend: &mut Pend,
        by: TaskId,
        no: CallNo,
        _now: u64,
        cep: CepId,
        len: u32,
        tmo: Tmo,
    ) -> Result<Out, NoMemory>
        requires rest { UdpAtRest (side self.old pend.old) }
        requires handler { by.0 ≡ 0 → is_poll tmo ≡ true }
        requires number { pend.old.last < no.0 }
        ensures does { IfOk result (λ o. Does (side self.new pend.new) no o (udp_call (side self.old pend.old) (context_of by) (Req.UdpRcvDat cep len tmo) no)) }
        ensures rest { IfOk result (λ _. UdpAtRest (side self.new pend.new)) }
    {
        match self.rcv_refusal(pend, by, cep, len, tmo) {
            Some(refusal) => Ok(code(alloc, refusal)),
            None if tmo.is_nblk() => self.receive_later(alloc, pend, by, no, cep, len, tmo),
            None => self.receive_now(alloc, pend, by, no, cep, len, tmo),
        }
    }

    // A receive that nothing refuses, and of which no routine is told: the oldest datagram meets it, or none is there.
    fn receive_now(
        &mut self,
        alloc: Global,
        pend: &mut Pend,
        by: TaskId,
        no: CallNo,
        cep: CepId,
        len: u32,
        tmo: Tmo,
    ) -> Result<Out, NoMemory>
        requires rest { UdpAtRest (side self.old pend.old) }
        requires number { pend.old.last < no.0 }
        requires waits { is_nblk tmo ≡ false }
        requires allowed { first_refusal (refusals (side self.old pend.old) (context_of by) (Req.UdpRcvDat cep len tmo)) ≡ None }
        ensures { IfOk result (λ o. Does (side self.new pend.new) no o (udp_call (side self.old pend.old) (context_of by) (Req.UdpRcvDat cep len tmo) no)) }
    {
        match take_oldest(&mut self.points, cep) {
            Some(datagram) => {
                let load = datagram.load.as_slice();
                let bytes = receive_bytes(alloc, len, datagram.from, load)?;
                Ok(alone(alloc, Ans::Now(receive_code(len, load), bytes)))
            }
            None if tmo.is_poll() => Ok(code(alloc, E_TMOUT)),
            None => {
                want(&mut self.points, cep, len);
                pend.accept(Who::Task(by), receive_slot(cep), no);
                Ok(alone(alloc, Ans::Pends(no)))
            }
        }
    }

    // A non-blocking receive that nothing refuses: it is accepted, and the oldest datagram ends it, or it waits.
    fn receive_later(
        &mut self,
        alloc: Global,
        pend: &mut Pend,
        by: TaskId,
        no: CallNo,
        cep: CepId,
        len: u32,
        tmo: Tmo,
    ) -> Result<Out, NoMemory>
        requires rest { UdpAtRest (side self.old pend.old) }
        requires number { pend.old.last < no.0 }
        requires later { is_nblk tmo ≡ true }
        requires allowed { first_refusal (refusals (side self.old pend.old) (context_of by) (Req.UdpRcvDat cep len tmo)) ≡ None }
        ensures { IfOk result (λ o. Does (side self.new pend.new) no o (udp_call (side self.old pend.old) (context_of by) (Req.UdpRcvDat cep len tmo) no)) }
    {
        let who = Who::Callback(by, routine_at(point_at(&self.points, cep)));
        want(&mut self.points, cep, len);
        match take_oldest(&mut self.points, cep) {
            Some(datagram) => {
                let load = datagram.load.as_slice();
                let bytes = receive_bytes(alloc, len, datagram.from, load)?;
                let code = receive_code(len, load);
                let slot = receive_slot(cep);
                let out = begin_and_end(alloc, pend, who, slot, no, code, bytes.as_slice())?;
                Ok(out)
            }
            None => {
                pend.accept(who, receive_slot(cep), no);
                Ok(alone(alloc, Ans::Later(no)))
            }
        }
    }

    // The code with which `udp_rcv_dat` is refused, if it is; in a handler it is a poll.
    fn rcv_refusal(&self, pend: &Pend, by: TaskId, cep: CepId, len: u32, tmo: Tmo) -> Option<Er>
        requires handler { by.0 ≡ 0 → is_poll tmo ≡ true }
        ensures { result ≡ first_refusal (refusals (side self.now pend.now) (context_of by) (Req.UdpRcvDat cep len tmo)) }
    {
        let point = point_at(&self.points, cep);
        first_refusal! {
            is_wrong_id(cep.0) => E_ID,
            point.is_none() => E_NOEXS,
            len > GREATEST_LENGTH => E_PAR,
            is_untold(point, tmo) => E_PAR,
            is_waiting(pend, receive_slot(cep)) => E_OBJ,
        }
    }
}
