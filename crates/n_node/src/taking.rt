//! What the parts of a node do in an event is taken over: the two parts meet here. A call of the network part that ends
//! wakes its task in the kernel, and a wait that the kernel ends for it ends in the network part too.

ghost use Rattle.std.specs.Prelude.{◌≡◌, [], ◌∷◌, Some, IfOk, OnOk, slice_set};
ghost use Rattle.spec_udp.specs.Settling.{UdpAtRest};
ghost use Rattle.e_udp.specs.Does.{side};
ghost use Rattle.spec_node.specs.Progress.{after_end, after_ends};
ghost use Rattle.n_node.specs.Plain.{plain};
ghost use Rattle.n_node.specs.Callers.{woken_one, woken_all};
ghost use Rattle.n_node.specs.Coming.{Adds, Moves};

use crate::callers::{only, task_by};
use crate::held::hold;
use crate::{Parts, Told};
use it_types::{Ans, Bytes, CallEnd, NoMemory, Out, TaskId};
use spec_kernel::KEnd;
use spec_node::Held;
use spec_pend::NetCall;
use std::alloc::Global;

impl Parts {
    /// The task holds the answer of its call that has ended.
    fn hold_end(&mut self, alloc: Global, task: TaskId, end: &CallEnd) -> Result<(), NoMemory>
        ensures { OnOk result (plain self.new ≡ record (plain self.old) { held = slice_set self.old.held.items task.0 (Some (record { code = end.now.code; bytes = end.now.bytes })) }) }
    {
        let answer = Held {
            code: end.code,
            bytes: Bytes::of(alloc, end.bytes.as_slice())?,
        };
        hold(&mut self.held, task, answer);
        Ok(())
    }

    /// A call of the network part has ended: the task that is told of it waits no longer, and holds the answer.
    fn wake(&mut self, alloc: Global, callers: &[NetCall], end: &CallEnd) -> Result<(), NoMemory>
        ensures { OnOk result (plain self.new ≡ woken_one callers.now (plain self.old) end.now) }
    {
        if let Some(task) = task_by(callers, end.call) {
            self.kernel.unblock(task);
            self.hold_end(alloc, task, end)?;
        }
        Ok(())
    }

    /// Calls of the network part have ended, one after another.
    fn wake_all(
        &mut self,
        alloc: Global,
        callers: &[NetCall],
        ends: &[CallEnd],
    ) -> Result<(), NoMemory>
        ensures { OnOk result (plain self.new ≡ woken_all callers.now (plain self.old) ends.now) }
    {
        for end in ends {
            self.wake(alloc, callers, end)?;
        }
        Ok(())
    }

    /// What the network part did is taken over: the ends of its calls, its marks, and its packets. Gives its answer.
    pub(crate) fn take_net(
        &mut self,
        alloc: Global,
        told: &mut Told,
        callers: &[NetCall],
        out: Out,
    ) -> Result<Ans, NoMemory>
        ensures answer { IfOk result (λ a. a ≡ out.ans) }
        ensures node { OnOk result (plain self.new ≡ woken_all callers.now (plain self.old) out.ends) }
        ensures told { OnOk result (Adds told.old out.ends out.marks out.packs told.new) }
    {
        let Out {
            ans,
            ends,
            marks,
            packs,
        } = out;
        self.wake_all(alloc, callers, ends.as_slice())?;
        told.add(ends, marks, packs)?;
        Ok(ans)
    }

    /// An end that the kernel made of a call of its own is told, and the task holds the answer.
    fn tell_end(&mut self, alloc: Global, told: &mut Told, end: &KEnd) -> Result<(), NoMemory>
        ensures node { OnOk result (plain self.new ≡ record (plain self.old) { held = slice_set self.old.held.items end.now.task.0 (Some (record { code = end.now.code; bytes = end.now.bytes })) }) }
        ensures told { OnOk result (Adds told.old (record { call = end.now.call; code = end.now.code; bytes = end.now.bytes } ∷ []) [] [] told.new) }
    {
        let call_end = CallEnd {
            call: end.call,
            code: end.code,
            bytes: Bytes::of(alloc, end.bytes.as_slice())?,
        };
        self.hold_end(alloc, end.task, &call_end)?;
        told.ends.push(call_end)
    }

    /// An end that the kernel made is taken over: one of a call of the network part ends there, with what follows from it.
    pub(crate) fn take_kernel_end(
        &mut self,
        alloc: Global,
        told: &mut Told,
        end: &KEnd,
    ) -> Result<(), NoMemory>
        requires rest { UdpAtRest (side self.old.udps self.old.pend) }
        ensures moves { OnOk result (Moves self.old told.old self.new told.new (λ p. after_end p end.now)) }
        ensures rest { OnOk result (UdpAtRest (side self.new.udps self.new.pend)) }
    {
        if end.outside {
            let callers = only(self.pend.call(end.call));
            let now = self.kernel.now();
            let out = self
                .udps
                .end(alloc, &mut self.pend, end.call, end.code, now)?;
            self.take_net(alloc, told, callers.as_slice(), out)?;
            Ok(())
        } else {
            self.tell_end(alloc, told, end)
        }
    }

    /// The ends that the kernel made are taken over, one after another.
    pub(crate) fn take_kernel_ends(
        &mut self,
        alloc: Global,
        told: &mut Told,
        ends: &[KEnd],
    ) -> Result<(), NoMemory>
        requires rest { UdpAtRest (side self.old.udps self.old.pend) }
        ensures moves { OnOk result (Moves self.old told.old self.new told.new (λ p. after_ends p ends.now)) }
        ensures rest { OnOk result (UdpAtRest (side self.new.udps self.new.pend)) }
    {
        for end in ends {
            self.take_kernel_end(alloc, told, end)?;
        }
        Ok(())
    }
}
