ghost use Rattle.std.specs.Prelude.{◌≡◌, ◌↔◌, ◌<◌, IfOk, IfSome, IsOk, None, OnErr, OnOk, option_map, true};
ghost use Rattle.std.specs.List.{position};
ghost use Rattle.spec_pend.specs.Ends.{AddsDue, ended};
ghost use Rattle.spec_pend.specs.Kept.{IsCep};
ghost use Rattle.spec_pend.specs.PlainPend.{opened_pend};
ghost use Rattle.spec_pend.specs.Slots.{accepted, at_slot, named, number_found, numbered};

use crate::calls::{call_at, is_taken, number_at, place_at, place_named, place_of};
use crate::due::tell;
use arrayvec::ArrayVec;
use it_types::{CallNo, CepId, E_OBJ, E_OK, Er, FnCode, Handler, NoMemory};
use spec_pend::{NetCall, Slot, Who};
use std::alloc::Global;
use std::collections::VecDeque;
use std::marker::Model;

/// The most calls that can wait: one at each of three parts of 16 end points of two protocols.
const MAX_CALLS: usize = 96;

/// The network calls of one node that wait (ITRON TCP/IP API, blocking and non-blocking calls), at most one at each part of an end
/// point, in the order of their numbers; and the handlers that are due, in the order in which they became so. Only handlers take
/// memory.
#[derive(Debug, Drop)]
pub struct Pend {
    pub(crate) last: u32,
    pub(crate) calls: ArrayVec<NetCall, MAX_CALLS>,
    pub(crate) due: VecDeque<Handler>,
}

impl Model for Pend {
    ghost use Rattle.spec_pend.specs.Kept.{CallsKept};
    ghost use Rattle.spec_pend.specs.PlainPend.{PlainPend};

    ghost Value = { PlainPend };

    ghost view = { λ p. record { last = p.last; calls = p.calls.items; due = p.due.items } };

    ghost invariant = { λ p. CallsKept p.last p.calls.items };
}

impl Pend {
    /// No call waits, and no handler is due. This takes no memory yet, so it succeeds.
    pub fn open(alloc: Global) -> Result<Pend, NoMemory>
        ensures opened { IfOk result (λ p. p ≡ opened_pend) }
        ensures succeeds { IsOk result }
    {
        Ok(Pend {
            last: 0,
            calls: ArrayVec::new(),
            due: VecDeque::new(alloc),
        })
    }

    /// Whether the number is above that of each call that was accepted.
    pub fn is_above(&self, no: CallNo) -> bool
        ensures { (result ≡ true) ↔ (self.now.last < no.0) }
    {
        self.last < no.0
    }

    /// Accepts a call under a new number: it waits at its part of an end point from then on, last. Where another waits there already,
    /// with whatever function, the code is E_OBJ, and nothing changes.
    pub fn accept(&mut self, who: Who, what: Slot, no: CallNo) -> Er
        requires cep { IsCep what.cep }
        requires above { self.old.last < no.0 }
        ensures { (self.new, result) ≡ accepted self.old who what no }
    {
        if is_taken(self.calls.as_slice(), what) {
            return E_OBJ;
        }
        self.last = no.0;
        self.calls.push(NetCall {
            call: no,
            who,
            slot: what,
        });
        E_OK
    }

    /// The number of the call that waits at this part of its end point, with whatever function.
    pub fn of(&self, what: Slot) -> Option<CallNo>
        ensures number { result ≡ number_found (at_slot self.now what) }
        ensures same { IfSome result (λ no. numbered self.now no ≡ at_slot self.now what) }
    {
        let place = place_at(self.calls.as_slice(), what);
        number_at(self.calls.as_slice(), place)
    }

    /// The call of this number, if it waits.
    pub fn call(&self, no: CallNo) -> Option<NetCall>
        ensures { result ≡ option_map (λ found. found.0) (numbered self.now no) }
    {
        match place_of(self.calls.as_slice(), no) {
            Some(place) => Some(call_at(self.calls.as_slice(), place)),
            None => None,
        }
    }

    /// The number of the call that a cancel of this function ends first at an end point (ITRON TCP/IP API, `tcp_can_cep` and
    /// `udp_can_cep`): with `All` that of its connection, then what it sends, then what it receives.
    pub fn cancel_first(&self, udp: bool, cep: CepId, func: FnCode) -> Option<CallNo>
        ensures number { result ≡ number_found (named self.now udp cep func) }
        ensures same { IfSome result (λ no. numbered self.now no ≡ named self.now udp cep func) }
    {
        let place = place_named(self.calls.as_slice(), udp, cep, func);
        number_at(self.calls.as_slice(), place)
    }

    /// Ends the call of this number, if it waits, with this code and these bytes, and tells who is told of it. A task is told by its
    /// return; a callback routine is due from then on, last. After want of memory nothing has changed: the call still waits.
    pub fn end(
        &mut self,
        alloc: Global,
        no: CallNo,
        code: Er,
        bytes: &[u8],
    ) -> Result<Option<Who>, NoMemory>
        ensures ended { IfOk result (λ who. (self.new, who) ≡ ended self.old no code bytes.now) }
        ensures none { IfOk result (λ who. (who ≡ None) ↔ (numbered self.old no ≡ None)) }
        ensures gone { OnOk result (numbered self.new no ≡ None) }
        ensures due { IfOk result (λ who. AddsDue self.old.due self.new.due who code bytes.now) }
        ensures no_memory { OnErr result (self.new ≡ self.old) }
    {
        match place_of(self.calls.as_slice(), no) {
            Some(place) => {
                let call = call_at(self.calls.as_slice(), place);
                tell(&mut self.due, alloc, call, code, bytes)?;
                self.calls.remove(place);
                Ok(Some(call.who))
            }
            None => Ok(None),
        }
    }
}
