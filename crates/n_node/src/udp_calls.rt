ghost use Rattle.std.specs.Prelude.{◌≡◌, ◌≢◌, ◌<◌, false, [], IfOk};
ghost use Rattle.it_types.specs.declared.id.TaskId.{TaskId as ATaskId};
ghost use Rattle.it_types.specs.declared.answer.Ans.TheVariants.{Now};
ghost use Rattle.it_types.specs.declared.context.Ctx.TheVariants.{Task as InTask};
ghost use Rattle.spec_udp.specs.Rows.{udp_call};
ghost use Rattle.spec_udp.specs.Settling.{UdpAtRest};
ghost use Rattle.e_udp.specs.Contexts.{context_of};
ghost use Rattle.e_udp.specs.Does.{Does, side};
ghost use Rattle.n_node.specs.Contexts.{needs_task};

use e_pend::Pend;
use e_udp::Udps;
use it_types::{Ans, Bytes, CallNo, Ctx, E_CTX, E_NOSPT, Er, List, NoMemory, Out, Req, TaskId};
use std::alloc::Global;

/// The call is answered at once with this code alone.
fn code(alloc: Global, code: Er) -> Out
    ensures { result ≡ record { ans = Now code []; ends = []; marks = []; packs = [] } }
{
    Out {
        ans: Ans::Now(code, Bytes::new(alloc)),
        ends: List::new(alloc),
        marks: List::new(alloc),
        packs: List::new(alloc),
    }
}

/// Whether a handler may not make this call.
fn needs_task(request: &Req) -> bool
    ensures { result ≡ needs_task request.now }
{
    match *request {
        Req::UdpCreCep { .. } | Req::UdpDelCep { .. } | Req::UdpSndDat { .. } => true,
        Req::UdpRcvDat { tmo, .. } => !tmo.is_poll(),
        _ => false,
    }
}

/// A call of the network part (ITRON TCP/IP API), at the UDP end points. `E_CTX`: a handler makes it that may not.
pub(crate) fn udp_call(
    alloc: Global,
    udps: &mut Udps,
    pend: &mut Pend,
    ctx: Ctx,
    number: CallNo,
    now: u64,
    request: &Req,
) -> Result<Out, NoMemory>
    requires rest { UdpAtRest (side udps.old pend.old) }
    requires task { (t : ATaskId) → ctx ≡ InTask t → t.0 ≢ 0 }
    requires number { pend.old.last < number.0 }
    ensures does { IfOk result (λ o. Does (side udps.new pend.new) number o (udp_call (side udps.old pend.old) ctx request.now number)) }
    ensures rest { IfOk result (λ _. UdpAtRest (side udps.new pend.new)) }
{
    if ctx.is_handler() && needs_task(request) {
        return Ok(code(alloc, E_CTX));
    }
    call_by(alloc, udps, pend, ctx.caller(), number, now, request)
}

/// The same by a task, or with 0 by a handler that may make the call. One of another part is answered `E_NOSPT`.
fn call_by(
    alloc: Global,
    udps: &mut Udps,
    pend: &mut Pend,
    by: TaskId,
    number: CallNo,
    now: u64,
    request: &Req,
) -> Result<Out, NoMemory>
    requires rest { UdpAtRest (side udps.old pend.old) }
    requires handler { by.0 ≡ 0 → needs_task request.now ≡ false }
    requires number { pend.old.last < number.0 }
    ensures does { IfOk result (λ o. Does (side udps.new pend.new) number o (udp_call (side udps.old pend.old) (context_of by) request.now number)) }
    ensures rest { IfOk result (λ _. UdpAtRest (side udps.new pend.new)) }
{
    match *request {
        Req::UdpCreCep { cep, port, cbr } => {
            udps.udp_cre_cep(alloc, pend, by, number, now, cep, port, cbr)
        }
        Req::UdpDelCep { cep } => udps.udp_del_cep(alloc, pend, by, number, now, cep),
        Req::UdpSndDat {
            cep,
            dest,
            ref load,
            tmo,
        } => {
            let load = load.as_slice();
            udps.udp_snd_dat(alloc, pend, by, number, now, cep, dest, load, tmo)
        }
        Req::UdpRcvDat { cep, len, tmo } => {
            udps.udp_rcv_dat(alloc, pend, by, number, now, cep, len, tmo)
        }
        Req::UdpCanCep { cep, func } => {
            udps.udp_can_cep(alloc, pend, by, number, now, cep, func)
        }
        _ => Ok(code(alloc, E_NOSPT)),
    }
}
