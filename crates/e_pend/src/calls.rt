//! Searches in the list of the calls that wait.

ghost use Rattle.std.specs.Prelude.{◌≡◌, ◌<◌, ◌&&◌, Bool, length, nat_lt, slice_index_or};
ghost use Rattle.std.specs.List.{list_any, position};
ghost use Rattle.spec_lists.specs.First.{is_least, take_first};
ghost use Rattle.spec_pend.specs.declared.call.NetCall.{NetCall as ANetCall};
ghost use Rattle.spec_pend.specs.Slots.{has_number, has_slot, is_at, is_named, is_of, number_found, part_number, part_of};

use it_types::{CallNo, CepId, FnCode};
use spec_pend::{NetCall, Part, Slot};

/// The number of a part in the order in which a cancel of all functions ends calls.
fn part_number(part: Part) -> u32
    ensures { result ≡ part_number part }
{
    match part {
        Part::Conn => 0,
        Part::Send => 1,
        Part::Recv => 2,
    }
}

fn is_at(call: &NetCall, udp: bool, cep: CepId) -> bool
    ensures { result ≡ is_at udp cep call.now }
{
    call.slot.udp == udp && call.slot.cep.0 == cep.0
}

fn has_slot(call: &NetCall, slot: Slot) -> bool
    ensures { result ≡ has_slot slot call.now }
{
    is_at(call, slot.udp, slot.cep) && part_number(call.slot.part) == part_number(slot.part)
}

/// A call waits at this part of its end point.
pub(crate) fn is_taken(calls: &[NetCall], slot: Slot) -> bool
    ensures { result ≡ list_any (has_slot slot) calls.now }
{
    calls.iter().any(|call| has_slot(call, slot))
}

/// The place of the call that waits at this part.
pub(crate) fn place_at(calls: &[NetCall], slot: Slot) -> Option<usize>
    ensures { result ≡ position (has_slot slot) calls.now }
{
    calls.iter().position(|call| has_slot(call, slot))
}

/// The place of the call of this number.
pub(crate) fn place_of(calls: &[NetCall], no: CallNo) -> Option<usize>
    ensures { result ≡ position (has_number no) calls.now }
{
    calls.iter().position(|call| call.call.0 == no.0)
}

/// A cancel of this function ends calls of that one.
fn is_of(asked: FnCode, func: FnCode) -> bool
    ensures { result ≡ is_of asked func }
{
    match asked {
        FnCode::All => true,
        _ => asked.number() == func.number(),
    }
}

fn is_named(call: &NetCall, udp: bool, cep: CepId, func: FnCode) -> bool
    ensures { result ≡ is_named udp cep func call.now }
{
    is_at(call, udp, cep) && is_of(func, call.slot.func)
}

/// The cancel names the other call too, and ends it first.
fn is_ahead(other: &NetCall, call: &NetCall, udp: bool, cep: CepId, func: FnCode) -> bool
    ensures { result ≡ (is_named udp cep func other.now && nat_lt (part_of other.now) (part_of call.now)) }
{
    is_named(other, udp, cep, func) && part_number(other.slot.part) < part_number(call.slot.part)
}

fn is_any_ahead(calls: &[NetCall], call: &NetCall, udp: bool, cep: CepId, func: FnCode) -> bool
    ensures { result ≡ list_any (λ other. is_named udp cep func other && nat_lt (part_of other) (part_of call.now)) calls.now }
{
    calls
        .iter()
        .any(|other| is_ahead(other, call, udp, cep, func))
}

/// The cancel names the call, and ends no other first.
fn is_next(calls: &[NetCall], call: &NetCall, udp: bool, cep: CepId, func: FnCode) -> bool
    ensures { result ≡ is_least (is_named udp cep func) part_of calls.now call.now }
{
    is_named(call, udp, cep, func) && !is_any_ahead(calls, call, udp, cep, func)
}

/// The place of the call that a cancel of this function ends first.
pub(crate) fn place_named(calls: &[NetCall], udp: bool, cep: CepId, func: FnCode) -> Option<usize>
    ensures { result ≡ position (is_least (is_named udp cep func) part_of calls.now) calls.now }
{
    calls
        .iter()
        .position(|call| is_next(calls, call, udp, cep, func))
}

/// The call at the place where a search has found it.
pub(crate) fn call_at(calls: &[NetCall], place: usize) -> NetCall
    requires { place < length calls.now }
    ensures { result ≡ slice_index_or calls.now place result }
{
    calls[place]
}

/// The number of the call at the place where a search has found it.
pub(crate) fn number_at(calls: &[NetCall], place: Option<usize>) -> Option<CallNo>
    requires { (f : ANetCall → Bool) × (place ≡ position f calls.now) }
    ensures { (f : ANetCall → Bool) → place ≡ position f calls.now → result ≡ number_found (take_first f calls.now) }
{
    match place {
        Some(place) => Some(call_at(calls, place).call),
        None => None,
    }
}
