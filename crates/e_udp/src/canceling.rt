ghost use Rattle.std.specs.Prelude.{◌≡◌, IfOk, None};
ghost use Rattle.it_types.specs.declared.request.Req.{Req};
ghost use Rattle.spec_lists.specs.Refusal.{first_refusal};
ghost use Rattle.spec_udp.specs.Rows.{refusals, udp_call};
ghost use Rattle.spec_udp.specs.Settling.{UdpAtRest};
ghost use Rattle.e_udp.specs.Contexts.{context_of};
ghost use Rattle.e_udp.specs.Does.{Does, side};

use crate::Udps;
use crate::points::{is_wrong_id, point_at};
use crate::telling::{code, ending_named};
use e_pend::Pend;
use it_types::{
    CallNo, CepId, E_ID, E_NOEXS, E_OBJ, E_RLWAI, Er, FnCode, NoMemory, Out, TaskId, first_refusal,
};
use std::alloc::Global;

impl Udps {
    /// Cancels the call of this function, or with `All` of any, that waits at an end point (ITRON TCP/IP API, `udp_can_cep`): it
    /// ends with `E_RLWAI`. `E_ID`: no such id; `E_NOEXS`: no end point; `E_OBJ`: no such call waits. A refused call changes
    /// nothing.
    pub fn udp_can_cep(
        &mut self,
        alloc: Global,
        pend: &mut Pend,
        by: TaskId,
        no: CallNo,
        _now: u64,
        cep: CepId,
        func: FnCode,
    ) -> Result<Out, NoMemory>
        requires rest { UdpAtRest (side self.old pend.old) }
        ensures does { IfOk result (λ o. Does (side self.new pend.new) no o (udp_call (side self.old pend.old) (context_of by) (Req.UdpCanCep cep func) no)) }
        ensures rest { IfOk result (λ _. UdpAtRest (side self.new pend.new)) }
    {
        match self.can_refusal(pend, by, cep, func) {
            Some(refusal) => Ok(code(alloc, refusal)),
            None => ending_named(alloc, pend, cep, func, E_RLWAI),
        }
    }

    // The code with which `udp_can_cep` is refused, if it is.
    fn can_refusal(&self, pend: &Pend, by: TaskId, cep: CepId, func: FnCode) -> Option<Er>
        ensures { result ≡ first_refusal (refusals (side self.now pend.now) (context_of by) (Req.UdpCanCep cep func)) }
    {
        let point = point_at(&self.points, cep);
        first_refusal! {
            is_wrong_id(cep.0) => E_ID,
            point.is_none() => E_NOEXS,
            pend.cancel_first(true, cep, func).is_none() => E_OBJ,
        }
    }
}
