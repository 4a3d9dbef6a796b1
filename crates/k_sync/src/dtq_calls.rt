ghost use Rattle.std.specs.Prelude.{◌≡◌, None, false, true};
ghost use Rattle.std.specs.List.{list_any};
ghost use Rattle.it_types.specs.Callers.{is_poll};
ghost use Rattle.spec_lists.specs.Refusal.{first_refusal};
ghost use Rattle.spec_lists.specs.Tables.{get};
ghost use Rattle.spec_kernel.specs.AnswerBytes.{four_bytes};
ghost use Rattle.spec_kernel.specs.QueueRuns.{NeverBoth};
ghost use Rattle.spec_kernel.specs.PlainQueues.{is_met, next_ready};
ghost use Rattle.spec_kernel.specs.QueueRows.{fsnd_dtq, fsnd_dtq_refusals, item_sent, met, other_side, sends_at_once, trcv_dtq, tsnd_dtq, tsnd_dtq_refusals, waiter_for, waiting};
ghost use Rattle.k_sync.specs.Waiting.{MayWait, paired};

use crate::Dtqs;
use crate::dtq_ends::take_effect;
use crate::next::{Objects, is_wrong_id, urgency_in};
use crate::queues::{force_item, hands_over, queue_at};
use crate::waiters::{first_in, is_awaited, join, take_out};
use it_types::{
    E_ID, E_ILUSE, E_NOEXS, E_OK, E_PAR, Er, ObjId, Small, Synced, TaskId, Tmo, first_refusal,
};
use spec_kernel::{Handed, WaitReason, Waiter};

/// The bytes of the item that a sender waits with.
fn item_bytes(reason: WaitReason) -> Small
    ensures { result ≡ four_bytes (item_sent reason) }
{
    match reason {
        WaitReason::Send(_, item) => Small::of_word(item),
        _ => Small::of_word(0),
    }
}

impl Dtqs {
    fn send_refusal(&self, dtq: ObjId, tmo: Tmo) -> Option<Er>
        ensures { result ≡ first_refusal (tsnd_dtq_refusals self.now dtq tmo) }
    {
        first_refusal! {
            is_wrong_id(dtq.0) => E_ID,
            queue_at(&self.queues, dtq).is_none() => E_NOEXS,
            tmo.is_nblk() => E_PAR,
        }
    }

    fn force_refusal(&self, dtq: ObjId) -> Option<Er>
        ensures { result ≡ first_refusal (fsnd_dtq_refusals self.now dtq) }
    {
        first_refusal! {
            is_wrong_id(dtq.0) => E_ID,
            queue_at(&self.queues, dtq).is_none() => E_NOEXS,
            hands_over(&self.queues, dtq) => E_ILUSE,
        }
    }

    /// Takes out the first task that waits so, where the queue hands over.
    fn take_other_side(&mut self, dtq: ObjId, reason: WaitReason) -> Option<Waiter>
        ensures found { other_side self.old dtq reason ≡ paired result self.new.waiters }
        ensures dtqs { self.new ≡ record self.old { waiters = self.new.waiters } }
        ensures none { result ≡ None → self.new ≡ self.old }
    {
        if hands_over(&self.queues, dtq) {
            let place = first_in(self.waiters.as_slice(), reason);
            take_out(&mut self.waiters, place)
        } else {
            None
        }
    }

    /// There is room, and no sender waits already.
    fn sends_at_once(&self, reason: WaitReason) -> bool
        ensures { result ≡ sends_at_once self.now reason }
    {
        self.queues.is_met(reason) && !is_awaited(self.waiters.as_slice(), reason)
    }

    /// What the call asks for is taken or given at once.
    fn meet(&mut self, reason: WaitReason) -> Synced
        requires { is_met self.old.queues reason ≡ true }
        ensures dtqs { self.new ≡ (met self.old reason).dtqs }
        ensures synced { result ≡ (met self.old reason).synced }
    {
        let bytes = self.queues.bytes_of(reason);
        take_effect(&mut self.queues, reason);
        Synced::Took(E_OK, bytes)
    }

    /// The task waits, but for a poll.
    fn wait(&mut self, reason: WaitReason, tmo: Tmo, task: TaskId, pri: u32, rank: u64) -> Synced
        requires may_wait { is_poll tmo ≡ false → MayWait task self.old.waiters }
        requires one_side { NeverBoth (waiting self.old (waiter_for self.old reason task pri rank) tmo).dtqs.waiters }
        ensures dtqs { self.new ≡ (waiting self.old (waiter_for self.old reason task pri rank) tmo).dtqs }
        ensures synced { result ≡ (waiting self.old (waiter_for self.old reason task pri rank) tmo).synced }
    {
        let waiter = Waiter {
            task,
            reason,
            urgency: urgency_in(self.queues.is_by_priority(reason), pri),
            rank,
        };
        join(&mut self.waiters, waiter, tmo);
        Synced::MustWait
    }

    /// Sends an item to a data queue (µITRON4.0 section 4.4.3, `tsnd_dtq`).
    pub fn tsnd_dtq(
        &mut self,
        dtq: ObjId,
        item: u32,
        tmo: Tmo,
        task: TaskId,
        pri: u32,
        rank: u64,
    ) -> Synced
        requires settled { next_ready self.old ≡ None }
        requires may_wait { is_poll tmo ≡ false → MayWait task self.old.waiters }
        ensures dtqs { self.new ≡ (tsnd_dtq self.old dtq item tmo task pri rank).dtqs }
        ensures synced { result ≡ (tsnd_dtq self.old dtq item tmo task pri rank).synced }
    {
        if let Some(code) = self.send_refusal(dtq, tmo) {
            return Synced::Refused(code);
        }
        if let Some(receiver) = self.take_other_side(dtq, WaitReason::Receive(dtq)) {
            self.handed = Some(Handed {
                task: receiver.task,
                item: Some(item),
            });
            return Synced::Took(E_OK, Small::new());
        }
        let reason = WaitReason::Send(dtq, item);
        if self.sends_at_once(reason) {
            return self.meet(reason);
        }
        self.wait(reason, tmo, task, pri, rank)
    }

    /// Sends an item to a data queue, whose oldest makes room where it is full (µITRON4.0 section 4.4.3, `fsnd_dtq`).
    pub fn fsnd_dtq(&mut self, dtq: ObjId, item: u32) -> Synced
        requires settled { next_ready self.old ≡ None }
        ensures dtqs { self.new ≡ (fsnd_dtq self.old dtq item).dtqs }
        ensures synced { result ≡ (fsnd_dtq self.old dtq item).synced }
    {
        if let Some(code) = self.force_refusal(dtq) {
            return Synced::Refused(code);
        }
        force_item(&mut self.queues, dtq, item);
        Synced::Took(E_OK, Small::new())
    }

    /// Receives the oldest item of a data queue (µITRON4.0 section 4.4.3, `trcv_dtq`).
    pub fn trcv_dtq(&mut self, dtq: ObjId, tmo: Tmo, task: TaskId, pri: u32, rank: u64) -> Synced
        requires settled { next_ready self.old ≡ None }
        requires may_wait { is_poll tmo ≡ false → MayWait task self.old.waiters }
        ensures dtqs { self.new ≡ (trcv_dtq self.old dtq tmo task pri rank).dtqs }
        ensures synced { result ≡ (trcv_dtq self.old dtq tmo task pri rank).synced }
    {
        if let Some(code) = self.send_refusal(dtq, tmo) {
            return Synced::Refused(code);
        }
        if let Some(sender) = self.take_other_side(dtq, WaitReason::Send(dtq, 0)) {
            self.handed = Some(Handed {
                task: sender.task,
                item: None,
            });
            return Synced::Took(E_OK, item_bytes(sender.reason));
        }
        let reason = WaitReason::Receive(dtq);
        if self.queues.is_met(reason) {
            return self.meet(reason);
        }
        self.wait(reason, tmo, task, pri, rank)
    }
}
