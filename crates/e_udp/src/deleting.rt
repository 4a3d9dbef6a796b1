ghost use Rattle.std.specs.Prelude.{◌≡◌, ◌≢◌, IfOk, None};
ghost use Rattle.it_types.specs.declared.request.Req.{Req};
ghost use Rattle.spec_lists.specs.Refusal.{first_refusal};
ghost use Rattle.spec_pend.specs.PlainPend.{PlainPend};
ghost use Rattle.spec_udp.specs.Rows.{refusals, udp_call};
ghost use Rattle.spec_udp.specs.Settling.{UdpAtRest};
ghost use Rattle.e_udp.specs.Contexts.{context_of};
ghost use Rattle.e_udp.specs.Does.{Does, side};

use crate::Udps;
use crate::points::{is_wrong_id, point_at, put};
use crate::telling::{code, ending_named};
use e_pend::Pend;
use it_types::{
    CallNo, CepId, E_DLT, E_ID, E_NOEXS, Er, FnCode, NoMemory, Out, TaskId, first_refusal,
};
use std::alloc::Global;

impl Udps {
    /// Deletes an end point with the datagrams that have come (ITRON TCP/IP API, `udp_del_cep`); the receive that waits there ends
    /// with `E_DLT`. `E_ID`: no such id; `E_NOEXS`: no end point. A refused call changes nothing.
    pub fn udp_del_cep(
        &mut self,
        alloc: Global,
        pend: &mut Pend,
        by: TaskId,
        no: CallNo,
        _now: u64,
        cep: CepId,
    ) -> Result<Out, NoMemory>
        requires rest { UdpAtRest (side self.old pend.old) }
        requires task { by.0 ≢ 0 }
        ensures does { IfOk result (λ o. Does (side self.new pend.new) no o (udp_call (side self.old pend.old) (context_of by) (Req.UdpDelCep cep) no)) }
        ensures rest { IfOk result (λ _. UdpAtRest (side self.new pend.new)) }
    {
        match self.del_refusal(by, cep) {
            Some(refusal) => Ok(code(alloc, refusal)),
            None => self.delete(alloc, pend, by, no, cep),
        }
    }

    // A deletion that nothing refuses.
    fn delete(
        &mut self,
        alloc: Global,
        pend: &mut Pend,
        by: TaskId,
        no: CallNo,
        cep: CepId,
    ) -> Result<Out, NoMemory>
        requires rest { UdpAtRest (side self.old pend.old) }
        requires allowed { first_refusal (refusals (side self.old pend.old) (context_of by) (Req.UdpDelCep cep)) ≡ None }
        ensures { IfOk result (λ o. Does (side self.new pend.new) no o (udp_call (side self.old pend.old) (context_of by) (Req.UdpDelCep cep) no)) }
    {
        put(&mut self.points, cep, None);
        ending_named(alloc, pend, cep, FnCode::All, E_DLT)
    }

    // The code with which `udp_del_cep` of a task is refused, if it is.
    fn del_refusal(&self, by: TaskId, cep: CepId) -> Option<Er>
        requires task { by.0 ≢ 0 }
        ensures { (p : PlainPend) → result ≡ first_refusal (refusals (side self.now p) (context_of by) (Req.UdpDelCep cep)) }
    {
        let point = point_at(&self.points, cep);
        first_refusal! {
            is_wrong_id(cep.0) => E_ID,
            point.is_none() => E_NOEXS,
        }
    }
}
