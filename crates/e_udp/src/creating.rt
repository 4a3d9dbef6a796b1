ghost use Rattle.std.specs.Prelude.{◌≡◌, ◌≢◌, IfOk, None};
ghost use Rattle.it_types.specs.declared.request.Req.{Req};
ghost use Rattle.spec_lists.specs.Refusal.{first_refusal};
ghost use Rattle.spec_pend.specs.PlainPend.{PlainPend};
ghost use Rattle.spec_udp.specs.Rows.{refusals, udp_call};
ghost use Rattle.spec_udp.specs.Settling.{UdpAtRest};
ghost use Rattle.e_udp.specs.Contexts.{context_of};
ghost use Rattle.e_udp.specs.Does.{Does, side};

use crate::points::{is_wrong_id, point_at, put};
use crate::ports::{is_taken, port_for};
use crate::refusals::is_unknown;
use crate::telling::code;
use crate::{Point, Udps};
use e_pend::Pend;
use it_types::{
    CallNo, CepId, E_ID, E_OBJ, E_OK, E_PAR, Er, NoMemory, ObjId, Out, TaskId, first_refusal,
};
use std::alloc::Global;

impl Udps {
    /// Makes an end point, from 1 to 16, with a local port, 0 for the least free one from 49,152 on, and a callback routine, 0 for
    /// none (ITRON TCP/IP API, `udp_cre_cep`). `E_ID`: no such id; `E_OBJ`: it is there; `E_PAR`: another end point has the
    /// port, or the routine is not declared. A refused call changes nothing.
    pub fn udp_cre_cep(
        &mut self,
        alloc: Global,
        pend: &mut Pend,
        by: TaskId,
        no: CallNo,
        _now: u64,
        cep: CepId,
        port: u16,
        cbr: ObjId,
    ) -> Result<Out, NoMemory>
        requires rest { UdpAtRest (side self.old pend.old) }
        requires task { by.0 ≢ 0 }
        ensures does { IfOk result (λ o. Does (side self.new pend.new) no o (udp_call (side self.old pend.old) (context_of by) (Req.UdpCreCep cep port cbr) no)) }
        ensures rest { IfOk result (λ _. UdpAtRest (side self.new pend.new)) }
    {
        match self.cre_refusal(by, cep, port, cbr) {
            Some(refusal) => Ok(code(alloc, refusal)),
            None => self.create(alloc, pend, by, no, cep, port, cbr),
        }
    }

    // An end point that nothing refuses.
    fn create(
        &mut self,
        alloc: Global,
        pend: &mut Pend,
        by: TaskId,
        no: CallNo,
        cep: CepId,
        port: u16,
        cbr: ObjId,
    ) -> Result<Out, NoMemory>
        requires rest { UdpAtRest (side self.old pend.old) }
        requires allowed { first_refusal (refusals (side self.old pend.old) (context_of by) (Req.UdpCreCep cep port cbr)) ≡ None }
        ensures { IfOk result (λ o. Does (side self.new pend.new) no o (udp_call (side self.old pend.old) (context_of by) (Req.UdpCreCep cep port cbr) no)) }
    {
        let port = port_for(&self.points, port);
        let point = Point::open(alloc, port, cbr)?;
        put(&mut self.points, cep, Some(point));
        Ok(code(alloc, E_OK))
    }

    // The code with which `udp_cre_cep` of a task is refused, if it is: that of the first test that holds.
    fn cre_refusal(&self, by: TaskId, cep: CepId, port: u16, cbr: ObjId) -> Option<Er>
        requires task { by.0 ≢ 0 }
        ensures { (p : PlainPend) → result ≡ first_refusal (refusals (side self.now p) (context_of by) (Req.UdpCreCep cep port cbr)) }
    {
        let point = point_at(&self.points, cep);
        first_refusal! {
            is_wrong_id(cep.0) => E_ID,
            point.is_some() => E_OBJ,
            is_taken(&self.points, port) => E_PAR,
            is_unknown(&self.routines, cbr) => E_PAR,
        }
    }
}
