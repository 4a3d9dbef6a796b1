ghost use Rattle.std.specs.Prelude.{◌≡◌, ◌≢◌, ◌≤◌, ◌<◌, ◌∷◌, [], IfOk, None, length, true};
ghost use Rattle.it_types.specs.declared.answer.Ans.{Ans as AnAns};
ghost use Rattle.it_types.specs.declared.request.Req.{Req};
ghost use Rattle.it_types.specs.Callers.{is_nblk};
ghost use Rattle.spec_lists.specs.Refusal.{first_refusal};
ghost use Rattle.spec_lists.specs.Tables.{get};
ghost use Rattle.spec_udp.specs.Packets.{sent_packet};
ghost use Rattle.spec_udp.specs.Receiving.{count_code};
ghost use Rattle.spec_pend.specs.PlainPend.{PlainPend};
ghost use Rattle.spec_udp.specs.Points.{local_port};
ghost use Rattle.spec_udp.specs.Rows.{refusals, udp_call};
ghost use Rattle.spec_udp.specs.Settling.{UdpAtRest};
ghost use Rattle.e_udp.specs.Contexts.{context_of};
ghost use Rattle.e_udp.specs.Does.{Does, side};
ghost use Rattle.e_udp.specs.Shows.{alone};

use crate::Udps;
use crate::points::{is_wrong_id, local_port, point_at, routine_at};
use crate::refusals::is_untold;
use crate::slots::send_slot;
use crate::telling::{alone, begin_and_end, code};
use e_pend::Pend;
use it_types::{
    Ans, Bytes, CallNo, CepId, E_ID, E_NOEXS, E_PAR, EndPt, Er, NoMemory, Out, TaskId, Tmo,
    first_refusal,
};
use net_ip4::Datagram;
use net_udp::Udp;
use spec_pend::Who;
use std::alloc::Global;

// The most data of a datagram that fits a packet of 1,500 bytes.
const GREATEST_LOAD: usize = 1472;

// The protocol number of UDP.
pub(crate) const UDP_PROTOCOL: u8 = 17;

/// The length of the data as the code of a success.
pub(crate) fn count_code(load: &[u8]) -> Er
    requires { length load.now ≤ 65535 }
    ensures { result ≡ count_code (length load.now) }
{
    Er(load.len() as i32)
}

// The packet in which data goes from a port of this address to an end point.
fn packet(alloc: Global, addr: u32, port: u16, dest: EndPt, load: &[u8]) -> Result<Bytes, NoMemory>
    requires { length load.now ≤ 1472 }
    ensures { IfOk result (λ bytes. bytes ≡ sent_packet addr port dest load.now) }
{
    let user_datagram = Udp {
        from_port: port,
        to_port: dest.port,
        load,
    };
    let mut inner = Vec::new(alloc);
    net_udp::encode_into(alloc, addr, dest.addr, &user_datagram, &mut inner)?;
    let datagram = Datagram {
        src: addr,
        dst: dest.addr,
        proto: UDP_PROTOCOL,
        ttl: 64,
        load: &inner,
    };
    let mut bytes = Vec::new(alloc);
    net_ip4::encode_into(alloc, &datagram, &mut bytes)?;
    Ok(Bytes::from_vec(bytes))
}

impl Udps {
    /// Sends at most 1,472 bytes to an end point of another node (ITRON TCP/IP API, `udp_snd_dat`): the packet goes out at once, and
    /// the answer is the length of the data; with `nblk` the call is accepted under its number and ends at once with that length,
    /// of which the end point's callback routine is told. `E_ID`: no such id; `E_NOEXS`: no end point; `E_PAR`: the
    /// destination is this node, or has no address or no port, the data is longer, or there is no routine to be told. A
    /// refused call changes nothing.
    pub fn udp_snd_dat(
        &mut self,
        alloc: Global,
        pend: &mut Pend,
        by: TaskId,
        no: CallNo,
        _now: u64,
        cep: CepId,
        dest: EndPt,
        load: &[u8],
        tmo: Tmo,
    ) -> Result<Out, NoMemory>
        requires rest { UdpAtRest (side self.old pend.old) }
        requires task { by.0 ≢ 0 }
        requires number { pend.old.last < no.0 }
        ensures does { IfOk result (λ o. Does (side self.new pend.new) no o (udp_call (side self.old pend.old) (context_of by) (Req.UdpSndDat cep dest load.now tmo) no)) }
        ensures rest { IfOk result (λ _. UdpAtRest (side self.new pend.new)) }
    {
        match self.snd_refusal(by, cep, dest, load, tmo) {
            Some(refusal) => Ok(code(alloc, refusal)),
            None if tmo.is_nblk() => self.send_later(alloc, pend, by, no, cep, dest, load, tmo),
            None => self.send_now(alloc, cep, dest, load),
        }
    }

    // The packet of a send of which no routine is told, and its answer.
    fn send_now(&self, alloc: Global, cep: CepId, dest: EndPt, load: &[u8]) -> Result<Out, NoMemory>
        requires { length load.now ≤ 1472 }
        ensures { IfOk result (λ o. o ≡ record (alone (AnAns.Now (count_code (length load.now)) [])) { packs = sent_packet self.now.addr (local_port (get self.now.points cep.0)) dest load.now ∷ [] }) }
    {
        let port = local_port(point_at(&self.points, cep));
        let packet = packet(alloc, self.addr, port, dest, load)?;
        let mut out = alone(alloc, Ans::Now(count_code(load), Bytes::new(alloc)));
        out.packs.push(packet)?;
        Ok(out)
    }

    // A non-blocking send that nothing refuses: it is accepted, and ends at once with its packet.
    fn send_later(
        &self,
        alloc: Global,
        pend: &mut Pend,
        by: TaskId,
        no: CallNo,
        cep: CepId,
        dest: EndPt,
        load: &[u8],
        tmo: Tmo,
    ) -> Result<Out, NoMemory>
        requires rest { UdpAtRest (side self.now pend.old) }
        requires number { pend.old.last < no.0 }
        requires later { is_nblk tmo ≡ true }
        requires allowed { first_refusal (refusals (side self.now pend.old) (context_of by) (Req.UdpSndDat cep dest load.now tmo)) ≡ None }
        ensures { IfOk result (λ o. Does (side self.now pend.new) no o (udp_call (side self.now pend.old) (context_of by) (Req.UdpSndDat cep dest load.now tmo) no)) }
    {
        let point = point_at(&self.points, cep);
        let packet = packet(alloc, self.addr, local_port(point), dest, load)?;
        let who = Who::Callback(by, routine_at(point));
        let code = count_code(load);
        let mut out = begin_and_end(alloc, pend, who, send_slot(cep), no, code, &[])?;
        out.packs.push(packet)?;
        Ok(out)
    }

    // The code with which `udp_snd_dat` of a task is refused, if it is.
    fn snd_refusal(&self, by: TaskId, cep: CepId, dest: EndPt, load: &[u8], tmo: Tmo) -> Option<Er>
        requires task { by.0 ≢ 0 }
        ensures { (p : PlainPend) → result ≡ first_refusal (refusals (side self.now p) (context_of by) (Req.UdpSndDat cep dest load.now tmo)) }
    {
        let point = point_at(&self.points, cep);
        first_refusal! {
            is_wrong_id(cep.0) => E_ID,
            point.is_none() => E_NOEXS,
            dest.addr == self.addr => E_PAR,
            dest.addr == 0 => E_PAR,
            dest.port == 0 => E_PAR,
            load.len() > GREATEST_LOAD => E_PAR,
            is_untold(point, tmo) => E_PAR,
        }
    }
}
