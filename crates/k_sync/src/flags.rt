ghost use Rattle.std.specs.Prelude.{◌≡◌, ◌||◌, ◌==◌, IfOk, IsSomeAnd, false};
ghost use Rattle.std.specs.List.{list_any};
ghost use Rattle.it_types.specs.Callers.{is_poll, is_nblk};
ghost use Rattle.spec_lists.specs.Refusal.{first_refusal};
ghost use Rattle.spec_kernel.specs.Waiters.{is_task};
ghost use Rattle.spec_kernel.specs.PlainFlags.{AreDeclarable, is_by_priority, opened, next_ready, freed, left, reprioritised};
ghost use Rattle.spec_kernel.specs.FlagRows.{set_flg, clr_flg, twai_flg, asked_for, is_occupied, set_flg_refusals, twai_flg_refusals};
ghost use Rattle.k_sync.specs.Waiting.{MayWait};

use crate::flag_table::{self, MAX_FLAGS, declared, is_missing, keep_bits, set_bits, takes_many};
use crate::next::{self, Objects, is_wrong_id, urgency_in};
use crate::waiters::{self, MAX_WAITERS, is_awaited, join, take_out};
use arrayvec::ArrayVec;
use it_types::{
    E_ID, E_ILUSE, E_NOEXS, E_OK, E_PAR, Er, NoMemory, ObjId, Small, SyncConf, Synced, Table,
    TaskId, Tmo, first_refusal,
};
use spec_kernel::{FlagBlock, FlagWait, WaitReason, Waiter};
use std::alloc::Global;
use std::marker::Model;

/// The event flags of a kernel, and the tasks that wait at them in the order of their ranks (µITRON4.0 section 4.4.2). After its
/// opening it takes no memory.
#[derive(Debug, Drop)]
pub struct Flags {
    flags: Table<FlagBlock, MAX_FLAGS>,
    waiters: ArrayVec<Waiter, MAX_WAITERS>,
}

impl Model for Flags {
    ghost use Rattle.spec_kernel.specs.PlainFlags.{PlainFlags};
    ghost use Rattle.k_sync.specs.Waiting.{AreApart};

    ghost Value = { PlainFlags };

    ghost view = { λ f. record { flags = f.flags; waiters = f.waiters.items } };

    ghost invariant = { λ f. AreApart f.waiters.items };
}

/// Nothing is asked for, or the call doesn't wait as the kernel's calls do.
fn is_no_wait(bits: u32, tmo: Tmo) -> bool
    ensures { result ≡ (is_nblk tmo || (bits == 0)) }
{
    tmo.is_nblk() || bits == 0
}

impl Flags {
    /// The declared event flags, at which nobody waits.
    pub fn open(alloc: Global, conf: &SyncConf) -> Result<Self, NoMemory>
        requires { AreDeclarable conf.now.flags }
        ensures { IfOk result (λ flags. flags ≡ opened conf.now) }
    {
        let flags = declared(alloc, conf.flags.as_slice())?;
        Ok(Flags {
            flags,
            waiters: ArrayVec::new(),
        })
    }

    fn set_refusal(&self, flg: ObjId) -> Option<Er>
        ensures { result ≡ first_refusal (set_flg_refusals self.now flg) }
    {
        first_refusal! {
            is_wrong_id(flg.0) => E_ID,
            is_missing(&self.flags, flg) => E_NOEXS,
        }
    }

    /// The flag takes one task alone, and one waits.
    fn is_occupied(&self, wait: FlagWait) -> bool
        ensures { result ≡ is_occupied self.now wait }
    {
        !takes_many(&self.flags, wait.flag)
            && is_awaited(self.waiters.as_slice(), WaitReason::Flag(wait))
    }

    fn wait_refusal(&self, wait: FlagWait, tmo: Tmo) -> Option<Er>
        ensures { result ≡ first_refusal (twai_flg_refusals self.now wait tmo) }
    {
        first_refusal! {
            is_wrong_id(wait.flag.0) => E_ID,
            is_missing(&self.flags, wait.flag) => E_NOEXS,
            is_no_wait(wait.bits, tmo) => E_PAR,
            self.is_occupied(wait) => E_ILUSE,
        }
    }

    /// Sets bits of the flag (`set_flg`). The tasks that this meets get their pattern by their own ends.
    pub fn set_flg(&mut self, flg: ObjId, bits: u32) -> Synced
        ensures flags { self.new ≡ (set_flg self.old flg bits).flags }
        ensures synced { result ≡ (set_flg self.old flg bits).synced }
    {
        if let Some(code) = self.set_refusal(flg) {
            return Synced::Refused(code);
        }
        set_bits(&mut self.flags, flg, bits);
        Synced::Took(E_OK, Small::new())
    }

    /// Leaves no other bits in the flag than these (`clr_flg`).
    pub fn clr_flg(&mut self, flg: ObjId, bits: u32) -> Synced
        ensures flags { self.new ≡ (clr_flg self.old flg bits).flags }
        ensures synced { result ≡ (clr_flg self.old flg bits).synced }
    {
        if let Some(code) = self.set_refusal(flg) {
            return Synced::Refused(code);
        }
        keep_bits(&mut self.flags, flg, bits);
        Synced::Took(E_OK, Small::new())
    }

    fn ask(&mut self, wait: FlagWait, tmo: Tmo, task: TaskId, pri: u32, rank: u64) -> Synced
        requires may_wait { is_poll tmo ≡ false → MayWait task self.old.waiters }
        ensures flags { self.new ≡ (asked_for self.old wait tmo task pri rank).flags }
        ensures synced { result ≡ (asked_for self.old wait tmo task pri rank).synced }
    {
        if let Some(code) = self.wait_refusal(wait, tmo) {
            return Synced::Refused(code);
        }
        let reason = WaitReason::Flag(wait);
        if self.flags.is_met(reason) {
            let bytes = self.flags.bytes_of(reason);
            flag_table::take(&mut self.flags, reason);
            return Synced::Took(E_OK, bytes);
        }
        let waiter = Waiter {
            task,
            reason,
            urgency: urgency_in(self.flags.is_by_priority(reason), pri),
            rank,
        };
        join(&mut self.waiters, waiter, tmo);
        Synced::MustWait
    }

    /// Asks for all of the bits, or for one of them (`twai_flg`), and is told the pattern. Where the pattern hasn't got them the
    /// task waits, but for a poll.
    pub fn twai_flg(
        &mut self,
        flg: ObjId,
        bits: u32,
        all: bool,
        tmo: Tmo,
        task: TaskId,
        pri: u32,
        rank: u64,
    ) -> Synced
        requires may_wait { is_poll tmo ≡ false → MayWait task self.old.waiters }
        ensures flags { self.new ≡ (twai_flg self.old flg bits all tmo task pri rank).flags }
        ensures synced { result ≡ (twai_flg self.old flg bits all tmo task pri rank).synced }
    {
        let wait = FlagWait {
            flag: flg,
            bits,
            all,
        };
        self.ask(wait, tmo, task, pri, rank)
    }

    /// The task whose wait ends next, with the code and the bytes that it gets.
    pub fn next_ready(&self) -> Option<(TaskId, Er, Small)>
        ensures { result ≡ next_ready self.now }
    {
        next::next_ready(&self.flags, self.waiters.as_slice())
    }

    /// Ends the wait of the task that `next_ready` names.
    pub fn free(&mut self, task: TaskId)
        requires { IsSomeAnd (next_ready self.old) (λ next. next.0 ≡ task) }
        ensures { self.new ≡ freed self.old }
    {
        let _ = task;
        let place = next::next_place(&self.flags, self.waiters.as_slice());
        if let Some(waiter) = take_out(&mut self.waiters, place) {
            flag_table::take(&mut self.flags, waiter.reason);
        }
    }

    /// Takes a task that waits out, and changes nothing more; whether it waited.
    pub fn leave(&mut self, task: TaskId) -> bool
        ensures flags { self.new ≡ left self.old task }
        ensures waited { result ≡ list_any (is_task task) self.old.waiters }
    {
        waiters::leave(&mut self.waiters, task)
    }

    /// Whether a task that waits for this waits by priority at a event flag.
    pub fn is_by_priority(&self, reason: WaitReason) -> bool
        ensures { result ≡ is_by_priority self.now.flags reason }
    {
        self.flags.is_by_priority(reason)
    }

    /// Moves a task that waits in a queue by priority to its new place; whether it waits at a flag.
    pub fn reprioritise(&mut self, task: TaskId, pri: u32, rank: u64) -> bool
        ensures flags { self.new ≡ reprioritised self.old task pri rank }
        ensures waits { result ≡ list_any (is_task task) self.old.waiters }
    {
        next::reprioritise(&self.flags, &mut self.waiters, task, pri, rank)
    }
}
