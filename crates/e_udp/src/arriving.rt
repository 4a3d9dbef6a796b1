ghost use Rattle.std.specs.Prelude.{◌≡◌, ◌≤◌, Some, Err, IfOk, IfSome, false, is_some, length, true};
ghost use Rattle.it_types.specs.declared.handler.FnCode.{FnCode as AFnCode};
ghost use Rattle.spec_lists.specs.Tables.{get};
ghost use Rattle.net_ip4.specs.Shown.{shown};
ghost use Rattle.net_udp.specs.Shown as user;
ghost use Rattle.spec_wire.specs.declared.udp.Bad.{Bad as ABad};
ghost use Rattle.spec_wire.specs.Udp.{Reads, refusal};
ghost use Rattle.spec_udp.specs.Packets.{if_for};
ghost use Rattle.spec_pend.specs.Slots.{is_taken};
ghost use Rattle.spec_udp.specs.Arrival.{after_arrival, at_point};
ghost use Rattle.spec_udp.specs.Rows.{slot_of};
ghost use Rattle.spec_udp.specs.Settling.{UdpAtRest, settled};
ghost use Rattle.e_udp.specs.Does.{Does, no_number, side};
ghost use Rattle.e_udp.specs.FromWire.{came_from};

use crate::Udps;
use crate::points::{has_place, join, point_at, routine_at, wanted_at};
use crate::ports::first_with;
use crate::receiving::{receive_bytes, receive_code};
use crate::sending::{UDP_PROTOCOL, count_code};
use crate::slots::{event_slot, receive_slot};
use crate::telling::{alone, ending_at, is_waiting, telling};
use e_pend::Pend;
use it_types::{Ans, Bytes, CepId, EndPt, NoMemory, Out};
use net_ip4::Datagram;
use net_udp::{Bad, Udp};
use spec_udp::Received;
use std::alloc::Global;

// The user datagram that begins the bytes.
fn decode(src: u32, dst: u32, bytes: &[u8]) -> Result<Udp<'_>, Bad>
    ensures read { IfOk result (λ u. Reads src dst bytes.now (user.shown u)) }
    ensures refused { (why : ABad) → result ≡ Err why → refusal src dst bytes.now ≡ Some why }
    ensures size { IfOk result (λ u. length u.load.now ≤ 65535) }
{
    net_udp::decode(src, dst, bytes)
}

// The user datagram in a datagram for this address, if it has one.
fn user_datagram<'a>(addr: u32, d: &Datagram<'a>) -> Option<Udp<'a>>
    ensures read { if_for addr (shown d.now) ≡ came_from d.now.src result }
    ensures size { IfSome result (λ u. length u.load.now ≤ 65535) }
{
    if d.dst != addr || d.proto != UDP_PROTOCOL {
        return None;
    }
    match decode(d.src, d.dst, d.load) {
        Ok(user_datagram) => Some(user_datagram),
        Err(_) => None,
    }
}

impl Udps {
    /// A datagram reaches the node (RFC 791). Where it is a user datagram (RFC 768) for a port of this node, the receive that waits
    /// there ends with it; without one it joins the end point's queue of at most 8, and the callback routine, if there is
    /// one, is told of it (ITRON TCP/IP API, the event `TEV_UDP_RCV_DAT`). All else is silently dropped.
    pub fn arrive(
        &mut self,
        alloc: Global,
        pend: &mut Pend,
        d: &Datagram<'_>,
        _now: u64,
    ) -> Result<Out, NoMemory>
        requires rest { UdpAtRest (side self.old pend.old) }
        ensures does { IfOk result (λ o. Does (side self.new pend.new) no_number o (settled (after_arrival (side self.old pend.old) (if_for self.old.addr (shown d.now))))) }
        ensures rest { IfOk result (λ _. UdpAtRest (side self.new pend.new)) }
    {
        match user_datagram(self.addr, d) {
            Some(user_datagram) => {
                let from = EndPt {
                    addr: d.src,
                    port: user_datagram.from_port,
                };
                self.deliver(alloc, pend, user_datagram.to_port, from, user_datagram.load)
            }
            None => Ok(alone(alloc, Ans::Quiet)),
        }
    }

    // A datagram comes to a port.
    fn deliver(
        &mut self,
        alloc: Global,
        pend: &mut Pend,
        port: u16,
        from: EndPt,
        load: &[u8],
    ) -> Result<Out, NoMemory>
        requires rest { UdpAtRest (side self.old pend.old) }
        requires size { length load.now ≤ 65535 }
        ensures { IfOk result (λ o. Does (side self.new pend.new) no_number o (settled (after_arrival (side self.old pend.old) (Some (record { port = port; received = record { from = from; load = load.now } }))))) }
    {
        match first_with(&self.points, port) {
            Some(place) => self.give(alloc, pend, CepId(place as u32), from, load),
            None => Ok(alone(alloc, Ans::Quiet)),
        }
    }

    // A datagram comes to an end point that is there.
    fn give(
        &mut self,
        alloc: Global,
        pend: &mut Pend,
        cep: CepId,
        from: EndPt,
        load: &[u8],
    ) -> Result<Out, NoMemory>
        requires rest { UdpAtRest (side self.old pend.old) }
        requires there { is_some (get self.old.points cep.0) ≡ true }
        requires size { length load.now ≤ 65535 }
        ensures { IfOk result (λ o. Does (side self.new pend.new) no_number o (settled (at_point (side self.old pend.old) (record { from = from; load = load.now }) (Some cep)))) }
    {
        if is_waiting(pend, receive_slot(cep)) {
            self.end_receive(alloc, pend, cep, from, load)
        } else {
            self.queue(alloc, pend, cep, from, load)
        }
    }

    // The receive that waits at an end point ends with a datagram.
    fn end_receive(
        &self,
        alloc: Global,
        pend: &mut Pend,
        cep: CepId,
        from: EndPt,
        load: &[u8],
    ) -> Result<Out, NoMemory>
        requires rest { UdpAtRest (side self.now pend.old) }
        requires there { is_some (get self.now.points cep.0) ≡ true }
        requires waits { is_taken pend.old (slot_of cep AFnCode.UdpRcv) ≡ true }
        ensures { IfOk result (λ o. Does (side self.now pend.new) no_number o (settled (at_point (side self.now pend.old) (record { from = from; load = load.now }) (Some cep)))) }
    {
        let len = wanted_at(point_at(&self.points, cep));
        let bytes = receive_bytes(alloc, len, from, load)?;
        let code = receive_code(len, load);
        ending_at(
            alloc,
            pend,
            receive_slot(cep),
            code,
            bytes.as_slice(),
            Ans::Quiet,
        )
    }

    // A datagram comes to an end point at which no receive waits.
    fn queue(
        &mut self,
        alloc: Global,
        pend: &mut Pend,
        cep: CepId,
        from: EndPt,
        load: &[u8],
    ) -> Result<Out, NoMemory>
        requires rest { UdpAtRest (side self.old pend.old) }
        requires there { is_some (get self.old.points cep.0) ≡ true }
        requires free { is_taken pend.old (slot_of cep AFnCode.UdpRcv) ≡ false }
        requires size { length load.now ≤ 65535 }
        ensures { IfOk result (λ o. Does (side self.new pend.new) no_number o (settled (at_point (side self.old pend.old) (record { from = from; load = load.now }) (Some cep)))) }
    {
        if !has_place(point_at(&self.points, cep)) {
            return Ok(alone(alloc, Ans::Quiet));
        }
        let load_kept = Bytes::of(alloc, load)?;
        join(
            &mut self.points,
            cep,
            Received {
                from,
                load: load_kept,
            },
        );
        let cbr = routine_at(point_at(&self.points, cep));
        if cbr.0 == 0 {
            return Ok(alone(alloc, Ans::Quiet));
        }
        telling(alloc, pend, cbr, event_slot(cep), count_code(load))
    }
}
