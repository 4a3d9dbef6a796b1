//! Who is told of the ends of an event. An end has the number of its call alone, and the call is gone then: so the calls that an
//! event may end are looked up before it.

ghost use Rattle.std.specs.Prelude.{◌≡◌, true};
ghost use Rattle.std.specs.List.{find};
ghost use Rattle.spec_pend.specs.Slots.{has_number, named};
ghost use Rattle.n_node.specs.Callers.{call_found, ended_by, listed, receive_at, all_receives, task_by, task_told};

use arrayvec::ArrayVec;
use e_pend::{Pend, Slot, Who};
use it_types::{CallNo, CepId, FnCode, Req, TABLE_PLACES, TaskId};
use spec_pend::{NetCall, Part};

/// The calls that an event may end: one at each end point, at most.
pub(crate) type Callers = ArrayVec<NetCall, TABLE_PLACES>;

/// The one call that may end, or none.
pub(crate) fn only(call: Option<NetCall>) -> Callers
    ensures { result.items ≡ listed call }
{
    let mut callers = ArrayVec::new();
    if let Some(call) = call {
        callers.push(call);
    }
    callers
}

fn named(pend: &Pend, cep: CepId, func: FnCode) -> Option<NetCall>
    ensures { result ≡ call_found (named pend.now true cep func) }
{
    match pend.cancel_first(true, cep, func) {
        Some(number) => pend.call(number),
        None => None,
    }
}

/// The call that a deletion or a cancel ends.
pub(crate) fn ended_by(pend: &Pend, request: &Req) -> Option<NetCall>
    ensures { result ≡ ended_by pend.now request.now }
{
    match request {
        Req::UdpDelCep { cep } => named(pend, *cep, FnCode::All),
        Req::UdpCanCep { cep, func } => named(pend, *cep, *func),
        _ => None,
    }
}

/// The receive that waits at an end point.
fn receive_at(pend: &Pend, cep: CepId) -> Option<NetCall>
    ensures { result ≡ receive_at pend.now cep.0 }
{
    let slot = Slot {
        udp: true,
        cep,
        part: Part::Recv,
        func: FnCode::UdpRcv,
    };
    match pend.of(slot) {
        Some(number) => pend.call(number),
        None => None,
    }
}

/// All receives that wait: a datagram may end any of them.
#[tactic(auto, unfolding(crate::specs::Callers::all_receives))]
pub(crate) fn receives(pend: &Pend) -> Callers
    ensures { result.items ≡ all_receives pend.now }
{
    let mut callers = ArrayVec::new();
    for place in 0..TABLE_PLACES {
        if let Some(call) = receive_at(pend, CepId(place as u32)) {
            callers.push(call);
        }
    }
    callers
}

/// The task that is told, if one is.
fn task_told(who: Who) -> Option<TaskId>
    ensures { result ≡ task_told who }
{
    match who {
        Who::Task(task) => Some(task),
        Who::Callback(_, _) => None,
    }
}

/// The call of this number.
fn caller(callers: &[NetCall], number: CallNo) -> Option<NetCall>
    ensures { result ≡ find (has_number number) callers.now }
{
    callers.iter().copied().find(|call| call.call.0 == number.0)
}

/// The task that is told of the end of the call of this number, by the calls that may end.
pub(crate) fn task_by(callers: &[NetCall], number: CallNo) -> Option<TaskId>
    ensures { result ≡ task_by callers.now number }
{
    match caller(callers, number) {
        Some(call) => task_told(call.who),
        None => None,
    }
}
