ghost use Rattle.std.specs.Prelude.{◌≡◌, IfOk, IsSomeAnd, None, false};
ghost use Rattle.std.specs.List.{list_any};
ghost use Rattle.it_types.specs.Callers.{is_poll};
ghost use Rattle.spec_lists.specs.Refusal.{first_refusal};
ghost use Rattle.spec_kernel.specs.Waiters.{is_task};
ghost use Rattle.spec_kernel.specs.PlainSemaphores.{AreDeclarable, is_by_priority, opened, next_ready, freed, left, reprioritised};
ghost use Rattle.spec_kernel.specs.SemaphoreRows.{sig_sem, twai_sem, sig_sem_refusals, twai_sem_refusals};
ghost use Rattle.k_sync.specs.Waiting.{MayWait};

use crate::next::{self, Objects, is_wrong_id, urgency_in};
use crate::sem_table::{self, MAX_SEMAPHORES, declared, is_full, is_missing, raise};
use crate::waiters::{self, MAX_WAITERS, is_awaited, join, take_out};
use arrayvec::ArrayVec;
use it_types::{
    E_ID, E_NOEXS, E_OK, E_PAR, E_QOVR, Er, NoMemory, ObjId, Small, SyncConf, Synced, Table,
    TaskId, Tmo, first_refusal,
};
use spec_kernel::{SemaphoreBlock, WaitReason, Waiter};
use std::alloc::Global;
use std::marker::Model;

/// The semaphores of a kernel, and the tasks that wait at them in the order of their ranks (µITRON4.0 section 4.4.1). After its opening it takes no memory.
#[derive(Debug, Drop)]
pub struct Sems {
    semaphores: Table<SemaphoreBlock, MAX_SEMAPHORES>,
    waiters: ArrayVec<Waiter, MAX_WAITERS>,
}

impl Model for Sems {
    ghost use Rattle.spec_kernel.specs.PlainSemaphores.{PlainSemaphores};
    ghost use Rattle.k_sync.specs.KeptSemaphores.{KeptSemaphores};

    ghost Value = { PlainSemaphores };

    ghost view = { λ s. record { semaphores = s.semaphores; waiters = s.waiters.items } };

    ghost invariant = { λ s. KeptSemaphores s.semaphores s.waiters.items };
}

impl Sems {
    /// The declared semaphores, at which nobody waits.
    pub fn open(alloc: Global, conf: &SyncConf) -> Result<Self, NoMemory>
        requires { AreDeclarable conf.now.sems }
        ensures { IfOk result (λ sems. sems ≡ opened conf.now) }
    {
        let semaphores = declared(alloc, conf.sems.as_slice())?;
        Ok(Sems {
            semaphores,
            waiters: ArrayVec::new(),
        })
    }

    fn signal_refusal(&self, sem: ObjId) -> Option<Er>
        ensures { result ≡ first_refusal (sig_sem_refusals self.now sem) }
    {
        let is_awaited = is_awaited(self.waiters.as_slice(), WaitReason::Semaphore(sem));
        first_refusal! {
            is_wrong_id(sem.0) => E_ID,
            is_missing(&self.semaphores, sem) => E_NOEXS,
            !is_awaited && is_full(&self.semaphores, sem) => E_QOVR,
        }
    }

    fn wait_refusal(&self, sem: ObjId, tmo: Tmo) -> Option<Er>
        ensures { result ≡ first_refusal (twai_sem_refusals self.now sem tmo) }
    {
        first_refusal! {
            is_wrong_id(sem.0) => E_ID,
            is_missing(&self.semaphores, sem) => E_NOEXS,
            tmo.is_nblk() => E_PAR,
        }
    }

    /// A count for the semaphore (`sig_sem`), which a task that waits for it gets by its own end.
    pub fn sig_sem(&mut self, sem: ObjId) -> Synced
        requires settled { next_ready self.old ≡ None }
        ensures sems { self.new ≡ (sig_sem self.old sem).sems }
        ensures synced { result ≡ (sig_sem self.old sem).synced }
    {
        if let Some(code) = self.signal_refusal(sem) {
            return Synced::Refused(code);
        }
        raise(&mut self.semaphores, sem);
        Synced::Took(E_OK, Small::new())
    }

    /// Takes a count of the semaphore (`twai_sem`). Where it has none the task waits, but for a poll.
    pub fn twai_sem(&mut self, sem: ObjId, tmo: Tmo, task: TaskId, pri: u32, rank: u64) -> Synced
        requires may_wait { is_poll tmo ≡ false → MayWait task self.old.waiters }
        ensures sems { self.new ≡ (twai_sem self.old sem tmo task pri rank).sems }
        ensures synced { result ≡ (twai_sem self.old sem tmo task pri rank).synced }
    {
        if let Some(code) = self.wait_refusal(sem, tmo) {
            return Synced::Refused(code);
        }
        let reason = WaitReason::Semaphore(sem);
        if self.semaphores.is_met(reason) {
            sem_table::take(&mut self.semaphores, reason);
            return Synced::Took(E_OK, Small::new());
        }
        let waiter = Waiter {
            task,
            reason,
            urgency: urgency_in(self.semaphores.is_by_priority(reason), pri),
            rank,
        };
        join(&mut self.waiters, waiter, tmo);
        Synced::MustWait
    }

    /// The task whose wait ends next, with the code and the bytes that it gets.
    pub fn next_ready(&self) -> Option<(TaskId, Er, Small)>
        ensures { result ≡ next_ready self.now }
    {
        next::next_ready(&self.semaphores, self.waiters.as_slice())
    }

    /// Ends the wait of the task that `next_ready` names.
    pub fn free(&mut self, task: TaskId)
        requires { IsSomeAnd (next_ready self.old) (λ next. next.0 ≡ task) }
        ensures { self.new ≡ freed self.old }
    {
        let _ = task;
        let place = next::next_place(&self.semaphores, self.waiters.as_slice());
        if let Some(waiter) = take_out(&mut self.waiters, place) {
            sem_table::take(&mut self.semaphores, waiter.reason);
        }
    }

    /// Takes a task that waits out, and changes nothing more; whether it waited.
    pub fn leave(&mut self, task: TaskId) -> bool
        ensures sems { self.new ≡ left self.old task }
        ensures waited { result ≡ list_any (is_task task) self.old.waiters }
    {
        waiters::leave(&mut self.waiters, task)
    }

    /// Whether a task that waits for this waits by priority at a semaphore.
    pub fn is_by_priority(&self, reason: WaitReason) -> bool
        ensures { result ≡ is_by_priority self.now.semaphores reason }
    {
        self.semaphores.is_by_priority(reason)
    }

    /// Moves a task that waits in a queue by priority to its new place; whether it waits at a semaphore.
    pub fn reprioritise(&mut self, task: TaskId, pri: u32, rank: u64) -> bool
        ensures sems { self.new ≡ reprioritised self.old task pri rank }
        ensures waits { result ≡ list_any (is_task task) self.old.waiters }
    {
        next::reprioritise(&self.semaphores, &mut self.waiters, task, pri, rank)
    }
}
