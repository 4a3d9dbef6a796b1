ghost use Rattle.std.specs.Prelude.{◌≡◌, ◌<◌, ◌≤◌, ◌+◌, ◌-◌, ◌^◌, IfOk};
ghost use Rattle.laws_kernel.specs.Calling.{Calls};
ghost use Rattle.spec_udp.specs.Settling.{UdpAtRest};
ghost use Rattle.e_udp.specs.Does.{side};
ghost use Rattle.spec_node.specs.declared.event.NodeEv.TheVariants.{Call as Called};
ghost use Rattle.spec_node.specs.NodeStep.{node_step, kernel_called, kernel_answer, drawn};
ghost use Rattle.n_node.specs.Plain.{plain};

use crate::held::forget;
use crate::told::Turn;
use crate::{Parts, Told};
use it_types::{Ans, Bytes, CallNo, Ctx, KReq, NoMemory, Out, Req};
use spec_kernel::KAns;
use std::alloc::Global;

/// The answer of the kernel, as the node tells it: a call that waits has its number there.
fn kernel_answer(alloc: Global, number: CallNo, answer: &KAns) -> Result<Ans, NoMemory>
    ensures { IfOk result (λ a. a ≡ kernel_answer number.0 answer.now) }
{
    match answer {
        KAns::Now(code, bytes) => Ok(Ans::Now(*code, Bytes::of(alloc, bytes.as_slice())?)),
        KAns::Pends => Ok(Ans::Pends(number)),
        KAns::Quiet => Ok(Ans::Quiet),
    }
}

/// The numbers drawn after an answer: one more where the call was accepted.
pub(crate) fn calls_after(calls: u32, answer: &Ans) -> u32
    requires { calls < 2 ^ 32 - 1 }
    ensures { result ≡ calls + drawn answer.now }
{
    match answer {
        Ans::Pends(_) | Ans::Later(_) => calls + 1,
        Ans::Now(_, _) | Ans::Quiet => calls,
    }
}

impl Parts {
    /// The running task, or the handler that has begun, makes a call: one of the kernel's, or one of the network part's.
    pub(crate) fn call(&mut self, alloc: Global, ctx: Ctx, request: &Req) -> Result<Out, NoMemory>
        requires last_call { self.old.kernel.last_call ≤ self.old.calls }
        requires last { self.old.pend.last ≤ self.old.calls }
        requires rest { UdpAtRest (side self.old.udps self.old.pend) }
        requires caller { Calls self.old.kernel ctx }
        requires calls { self.old.calls < 2 ^ 31 - 1 }
        requires now { self.old.kernel.clock.now < 2 ^ 59 }
        requires ranks { self.old.kernel.next_rank < 2 ^ 59 }
        ensures { IfOk result (λ o. node_step (plain self.old) (Called ctx request.now) ≡ (plain self.new, o)) }
    {
        match request.kernel() {
            Some(call) => self.call_kernel(alloc, ctx, &call),
            None => self.call_network(alloc, ctx, request),
        }
    }

    /// A call of the kernel: if it waits it gets the next number.
    fn call_kernel(&mut self, alloc: Global, ctx: Ctx, request: &KReq) -> Result<Out, NoMemory>
        requires last_call { self.old.kernel.last_call ≤ self.old.calls }
        requires rest { UdpAtRest (side self.old.udps self.old.pend) }
        requires caller { Calls self.old.kernel ctx }
        requires calls { self.old.calls < 2 ^ 31 - 1 }
        requires now { self.old.kernel.clock.now < 2 ^ 59 }
        requires ranks { self.old.kernel.next_rank < 2 ^ 59 }
        ensures { IfOk result (λ o. kernel_called (plain self.old) ctx request.now ≡ (plain self.new, o)) }
    {
        let before = self.kernel.running();
        let number = CallNo(self.calls + 1);
        let done = self.kernel.call(ctx, request, number);
        let ans = kernel_answer(alloc, number, &done.ans)?;
        self.calls = calls_after(self.calls, &ans);
        let mut told = Told::nothing(alloc);
        self.take_kernel_ends(alloc, &mut told, done.ends.as_slice())?;
        forget(&mut self.held, done.gone);
        let turn = Turn {
            gone: done.gone,
            begun: done.begun,
            before,
            after: self.kernel.running(),
        };
        told.out(alloc, ans, turn)
    }
}
