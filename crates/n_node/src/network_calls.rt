//! Calls of the network part (ITRON TCP/IP API).

ghost use Rattle.std.specs.Prelude.{◌≡◌, ◌<◌, ◌≤◌, ◌-◌, ◌+◌, ◌^◌, false, true, IfOk};
ghost use Rattle.it_types.specs.declared.answer.Ans.TheVariants.{Pends};
ghost use Rattle.it_types.specs.declared.id.CallNo.{CallNo as ACallNo};
ghost use Rattle.it_types.specs.Callers.{caller, is_handler};
ghost use Rattle.k_core.specs.Kernel.{may_wait};
ghost use Rattle.laws_kernel.specs.Calling.{Calls};
ghost use Rattle.spec_udp.specs.PlainUdps.{UdpOutcome};
ghost use Rattle.spec_udp.specs.Settling.{UdpAtRest};
ghost use Rattle.e_udp.specs.Does.{Does, side};
ghost use Rattle.spec_node.specs.NodeStep.{network_called, drawn};
ghost use Rattle.n_node.specs.Plain.{plain};
ghost use Rattle.n_node.specs.Callers.{TellWho};
ghost use Rattle.n_node.specs.Coming.{blocked_at, network_done};

use crate::callers::{ended_by, only};
use crate::calling::calls_after;
use crate::told::Turn;
use crate::udp_calls::udp_call;
use crate::{Parts, Told};
use it_types::{Ans, CallNo, Ctx, NoMemory, Out, Req, Tmo};
use spec_pend::NetCall;
use std::alloc::Global;

impl Parts {
    /// The running task, or a handler, makes a call of the network part: if it is accepted it gets the next number.
    pub(crate) fn call_network(
        &mut self,
        alloc: Global,
        ctx: Ctx,
        request: &Req,
    ) -> Result<Out, NoMemory>
        requires last_call { self.old.kernel.last_call ≤ self.old.calls }
        requires last { self.old.pend.last ≤ self.old.calls }
        requires rest { UdpAtRest (side self.old.udps self.old.pend) }
        requires caller { Calls self.old.kernel ctx }
        requires calls { self.old.calls < 2 ^ 31 - 1 }
        requires now { self.old.kernel.clock.now < 2 ^ 59 }
        requires ranks { self.old.kernel.next_rank < 2 ^ 59 }
        ensures { IfOk result (λ o. network_called (plain self.old) ctx request.now ≡ (plain self.new, o)) }
    {
        let number = CallNo(self.calls + 1);
        let now = self.kernel.now();
        let callers = only(ended_by(&self.pend, request));
        let Parts { udps, pend, .. } = self;
        let out = udp_call(alloc, udps, pend, ctx, number, now, request)?;
        self.finish(alloc, ctx, request.timeout(), callers.as_slice(), out)
    }

    /// The network part has answered a call: if its task waits, it waits outside, under the call's number.
    fn block(&mut self, ctx: Ctx, tmo: Tmo, ans: &Ans)
        requires last_call { self.old.kernel.last_call ≤ self.old.calls }
        requires caller { Calls self.old.kernel ctx }
        requires waits { (number : ACallNo) → ans.now ≡ Pends number → (is_handler ctx ≡ false) × (may_wait tmo ≡ true) × (number.0 ≡ self.old.calls + 1) }
        requires calls { self.old.calls < 2 ^ 31 - 1 }
        requires now { self.old.kernel.clock.now < 2 ^ 59 }
        requires ranks { self.old.kernel.next_rank < 2 ^ 59 }
        ensures { plain self.new ≡ record (plain self.old) { kernel = blocked_at ans.now self.old.kernel (caller ctx) tmo; calls = self.old.calls + drawn ans.now } }
    {
        if let Ans::Pends(number) = ans {
            self.kernel.block(ctx.caller(), tmo, *number);
        }
        self.calls = calls_after(self.calls, ans);
    }

    /// What the network part did at a call is taken over and told.
    fn finish(
        &mut self,
        alloc: Global,
        ctx: Ctx,
        tmo: Tmo,
        callers: &[NetCall],
        out: Out,
    ) -> Result<Out, NoMemory>
        requires last_call { self.old.kernel.last_call ≤ self.old.calls }
        requires caller { Calls self.old.kernel ctx }
        requires waits { (number : ACallNo) → out.ans ≡ Pends number → (is_handler ctx ≡ false) × (may_wait tmo ≡ true) × (number.0 ≡ self.old.calls + 1) }
        requires calls { self.old.calls < 2 ^ 31 - 1 }
        requires now { self.old.kernel.clock.now < 2 ^ 59 }
        requires ranks { self.old.kernel.next_rank < 2 ^ 59 }
        ensures { IfOk result (λ told. (o : UdpOutcome) → Does (side self.old.udps self.old.pend) (record { 0 = self.old.calls + 1 }) out o → TellWho callers.now o.endings.ends → network_done (plain self.old) o (caller ctx) tmo ≡ (plain self.new, told)) }
    {
        let before = self.kernel.running();
        self.block(ctx, tmo, &out.ans);
        let mut told = Told::nothing(alloc);
        let ans = self.take_net(alloc, &mut told, callers, out)?;
        let turn = Turn::between(before, self.kernel.running());
        told.out(alloc, ans, turn)
    }
}
