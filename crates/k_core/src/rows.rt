//! The rows of the kernel's calls: each part does its part.

ghost use Rattle.std.specs.Prelude.{◌≡◌, ◌<◌, ◌^◌, ◌≤◌, ◌&&◌, [], None, false, length, not};
ghost use Rattle.it_types.specs.Callers.{caller, is_handler, is_poll, nobody};
ghost use Rattle.spec_kernel.specs.declared.outcome.KAns.TheVariants.{Now};
ghost use Rattle.spec_kernel.specs.declared.reason.WaitReason.{WaitReason as AWaitReason};
ghost use Rattle.spec_kernel.specs.PlainSemaphores.{next_ready as next_at_semaphores};
ghost use Rattle.spec_kernel.specs.PlainQueues.{next_ready as next_at_queues};
ghost use Rattle.spec_kernel.specs.PlainClock.{answer_to_time, set_tim};
ghost use Rattle.spec_kernel.specs.TaskRows.{chg_pri};
ghost use Rattle.spec_kernel.specs.SemaphoreRows.{twai_sem};
ghost use Rattle.spec_kernel.specs.FlagRows.{twai_flg};
ghost use Rattle.spec_kernel.specs.QueueRows.{trcv_dtq, tsnd_dtq};
ghost use Rattle.spec_kernel.specs.Calls.{is_a_handlers};
ghost use Rattle.k_core.specs.PartsRows.{carried_out, done_by_flags, done_by_queues, done_by_semaphores, priority_in, reprioritised, row};
ghost use Rattle.k_core.specs.Callers.{MayCall, MayCallAs};
ghost use Rattle.k_core.specs.Does.{Does};

use crate::Done;
use crate::done::answered;
use crate::moving::named;
use crate::parts::Parts;
use it_types::{CallNo, Ctx, E_CTX, E_OK, E_PAR, Er, KReq, ObjId, Small, TaskId, Tmo};
use k_time::Clock;
use spec_kernel::{FlagWait, KAns, WaitReason};

/// The least system time, in ticks, that can't be set.
const TIME_LIMIT: u64 = 1 << 63;

/// Whether a handler may make the call.
fn is_a_handlers(req: &KReq) -> bool
    ensures { result ≡ is_a_handlers req.now }
{
    match *req {
        KReq::ActTsk { .. }
        | KReq::WupTsk { .. }
        | KReq::RelWai { .. }
        | KReq::RotRdq { .. }
        | KReq::GetTid
        | KReq::SigSem { .. }
        | KReq::SetFlg { .. }
        | KReq::FsndDtq { .. } => true,
        KReq::TsndDtq { tmo, .. } => tmo.is_poll(),
        _ => false,
    }
}

/// Sets the system time, where it is below 2^63 ticks.
fn set_tim(clock: &mut Clock, ms: u64) -> Er
    ensures code { result ≡ answer_to_time ms }
    ensures clock { clock.new ≡ set_tim clock.old ms }
{
    if ms >= TIME_LIMIT {
        return E_PAR;
    }
    clock.set_tim(ms);
    E_OK
}

/// The answer of a call with a code alone.
fn coded(code: Er) -> Done
    ensures answer { result.ans ≡ Now code [] }
    ensures ends { result.ends.items ≡ [] }
    ensures gone { result.gone ≡ nobody }
    ensures begun { result.begun ≡ nobody }
{
    answered(KAns::Now(code, Small::new()))
}

/// What a task waits for at an event flag.
fn flag_reason(flag: ObjId, bits: u32, all: bool) -> WaitReason
    ensures { result ≡ AWaitReason.Flag (record { flag = flag; bits = bits; all = all }) }
{
    WaitReason::Flag(FlagWait { flag, bits, all })
}

impl Parts {
    /// A call of the kernel, but for the ends of calls that it makes ready.
    pub(crate) fn row(&mut self, ctx: Ctx, req: &KReq, no: CallNo) -> Done
        requires sems { next_at_semaphores self.old.sems ≡ None }
        requires dtqs { next_at_queues self.old.dtqs ≡ None }
        requires caller { MayCall self.old ctx }
        requires now { self.old.clock.now < 2 ^ 60 }
        requires ranks { self.old.tasks.next_rank < 2 ^ 60 }
        ensures does { Does self.new result (row self.old ctx req.now no) }
        ensures few { length result.ends.items ≤ 1 }
    {
        if ctx.is_handler() && !is_a_handlers(req) {
            coded(E_CTX)
        } else {
            self.carry_out(ctx, req, no)
        }
    }

    fn carry_out(&mut self, ctx: Ctx, req: &KReq, no: CallNo) -> Done
        requires allowed { (is_handler ctx && not (is_a_handlers req.now)) ≡ false }
        requires sems { next_at_semaphores self.old.sems ≡ None }
        requires dtqs { next_at_queues self.old.dtqs ≡ None }
        requires caller { MayCall self.old ctx }
        requires now { self.old.clock.now < 2 ^ 60 }
        requires ranks { self.old.tasks.next_rank < 2 ^ 60 }
        ensures does { Does self.new result (carried_out self.old ctx req.now no) }
        ensures few { length result.ends.items ≤ 1 }
    {
        match *req {
            KReq::ActTsk { task } => {
                let did = self.tasks.act_tsk(ctx, task);
                self.finish(ctx, did)
            }
            KReq::CanAct { task } => {
                let did = self.tasks.can_act(ctx, task);
                self.finish(ctx, did)
            }
            KReq::ExtTsk => {
                let did = self.tasks.ext_tsk(ctx);
                self.finish(ctx, did)
            }
            KReq::TerTsk { task } => {
                let did = self.tasks.ter_tsk(ctx, task);
                self.finish(ctx, did)
            }
            KReq::GetPri { task } => {
                let did = self.tasks.get_pri(ctx, task);
                self.finish(ctx, did)
            }
            KReq::WupTsk { task } => {
                let did = self.tasks.wup_tsk(ctx, task);
                self.finish(ctx, did)
            }
            KReq::CanWup { task } => {
                let did = self.tasks.can_wup(ctx, task);
                self.finish(ctx, did)
            }
            KReq::RelWai { task } => {
                let did = self.tasks.rel_wai(ctx, task);
                self.finish(ctx, did)
            }
            KReq::SusTsk { task } => {
                let did = self.tasks.sus_tsk(ctx, task);
                self.finish(ctx, did)
            }
            KReq::RsmTsk { task } => {
                let did = self.tasks.rsm_tsk(ctx, task);
                self.finish(ctx, did)
            }
            KReq::FrsmTsk { task } => {
                let did = self.tasks.frsm_tsk(ctx, task);
                self.finish(ctx, did)
            }
            KReq::RotRdq { pri } => {
                let did = self.tasks.rot_rdq(ctx, pri);
                self.finish(ctx, did)
            }
            KReq::GetTid => {
                let did = self.tasks.get_tid(ctx);
                self.finish(ctx, did)
            }
            KReq::ChgPri { task, pri } => self.chg_pri(ctx, task, pri),
            KReq::TslpTsk { tmo } => {
                let did = self.tasks.tslp_tsk(ctx, tmo);
                self.wait_or_finish(ctx, did, WaitReason::Sleep, tmo, no)
            }
            KReq::DlyTsk { ms } => {
                let did = self.tasks.dly_tsk(ctx, ms);
                self.wait_or_finish(ctx, did, WaitReason::Delay, Tmo::Ms(ms), no)
            }
            KReq::SigSem { sem } => {
                let synced = self.sems.sig_sem(sem);
                self.answer_or_accept(ctx, synced, WaitReason::Semaphore(sem), Tmo::Pol, no)
            }
            KReq::TwaiSem { sem, tmo } => self.twai_sem(ctx, sem, tmo, no),
            KReq::SetFlg { flg, bits } => {
                let synced = self.flags.set_flg(flg, bits);
                self.answer_or_accept(ctx, synced, flag_reason(flg, bits, false), Tmo::Pol, no)
            }
            KReq::ClrFlg { flg, bits } => {
                let synced = self.flags.clr_flg(flg, bits);
                self.answer_or_accept(ctx, synced, flag_reason(flg, bits, false), Tmo::Pol, no)
            }
            KReq::TwaiFlg {
                flg,
                bits,
                all,
                tmo,
            } => self.twai_flg(ctx, flg, bits, all, tmo, no),
            KReq::TsndDtq { dtq, item, tmo } => self.tsnd_dtq(ctx, dtq, item, tmo, no),
            KReq::FsndDtq { dtq, item } => {
                let synced = self.dtqs.fsnd_dtq(dtq, item);
                self.answer_or_hand_over(ctx, synced, WaitReason::Send(dtq, item), Tmo::Pol, no)
            }
            KReq::TrcvDtq { dtq, tmo } => self.trcv_dtq(ctx, dtq, tmo, no),
            KReq::SetTim { ms } => coded(set_tim(&mut self.clock, ms)),
            KReq::GetTim => answered(KAns::Now(E_OK, Small::of_long(self.clock.get_tim()))),
            KReq::StaCyc { cyc } => coded(self.clock.sta_cyc(cyc)),
            KReq::StpCyc { cyc } => coded(self.clock.stp_cyc(cyc)),
        }
    }

    // ---- calls that may have to wait, and a new priority

    /// The priority of the caller, which waits nowhere.
    fn priority_in(&self, ctx: Ctx) -> u32
        requires caller { MayCall self.now ctx }
        ensures priority { result ≡ priority_in self.now ctx }
        ensures idle { is_handler ctx ≡ false → MayCallAs self.now (caller ctx) }
    {
        self.tasks.pri(ctx.caller())
    }

    /// A count of a semaphore, where it has one (µITRON4.0 section 4.4.1, `twai_sem`).
    fn twai_sem(&mut self, ctx: Ctx, sem: ObjId, tmo: Tmo, no: CallNo) -> Done
        requires task { is_handler ctx ≡ false }
        requires caller { MayCall self.old ctx }
        requires now { self.old.clock.now < 2 ^ 60 }
        requires ranks { self.old.tasks.next_rank < 2 ^ 60 }
        ensures does { Does self.new result (done_by_semaphores self.old ctx (twai_sem self.old.sems sem tmo (caller ctx) (priority_in self.old ctx) self.old.tasks.next_rank) (AWaitReason.Semaphore sem) tmo no) }
        ensures few { length result.ends.items ≤ 1 }
    {
        let pri = self.priority_in(ctx);
        let rank = self.tasks.next_rank();
        let synced = self.sems.twai_sem(sem, tmo, ctx.caller(), pri, rank);
        self.answer_or_accept(ctx, synced, WaitReason::Semaphore(sem), tmo, no)
    }

    /// The pattern of an event flag, where the condition holds (µITRON4.0 section 4.4.2, `twai_flg`).
    fn twai_flg(
        &mut self,
        ctx: Ctx,
        flag: ObjId,
        bits: u32,
        all: bool,
        tmo: Tmo,
        no: CallNo,
    ) -> Done
        requires task { is_handler ctx ≡ false }
        requires caller { MayCall self.old ctx }
        requires now { self.old.clock.now < 2 ^ 60 }
        requires ranks { self.old.tasks.next_rank < 2 ^ 60 }
        ensures does { Does self.new result (done_by_flags self.old ctx (twai_flg self.old.flags flag bits all tmo (caller ctx) (priority_in self.old ctx) self.old.tasks.next_rank) (AWaitReason.Flag (record { flag = flag; bits = bits; all = all })) tmo no) }
        ensures few { length result.ends.items ≤ 1 }
    {
        let pri = self.priority_in(ctx);
        let rank = self.tasks.next_rank();
        let synced = self
            .flags
            .twai_flg(flag, bits, all, tmo, ctx.caller(), pri, rank);
        let reason = WaitReason::Flag(FlagWait { flag, bits, all });
        self.answer_or_accept(ctx, synced, reason, tmo, no)
    }

    /// Sends an item to a data queue (µITRON4.0 section 4.4.3, `tsnd_dtq`).
    fn tsnd_dtq(&mut self, ctx: Ctx, dtq: ObjId, item: u32, tmo: Tmo, no: CallNo) -> Done
        requires settled { next_at_queues self.old.dtqs ≡ None }
        requires task { is_poll tmo ≡ false → is_handler ctx ≡ false }
        requires caller { MayCall self.old ctx }
        requires now { self.old.clock.now < 2 ^ 60 }
        requires ranks { self.old.tasks.next_rank < 2 ^ 60 }
        ensures does { Does self.new result (done_by_queues self.old ctx (tsnd_dtq self.old.dtqs dtq item tmo (caller ctx) (priority_in self.old ctx) self.old.tasks.next_rank) (AWaitReason.Send dtq item) tmo no) }
        ensures few { length result.ends.items ≤ 1 }
    {
        let pri = self.priority_in(ctx);
        let rank = self.tasks.next_rank();
        let synced = self.dtqs.tsnd_dtq(dtq, item, tmo, ctx.caller(), pri, rank);
        self.answer_or_hand_over(ctx, synced, WaitReason::Send(dtq, item), tmo, no)
    }

    /// Receives an item of a data queue (µITRON4.0 section 4.4.3, `trcv_dtq`).
    fn trcv_dtq(&mut self, ctx: Ctx, dtq: ObjId, tmo: Tmo, no: CallNo) -> Done
        requires settled { next_at_queues self.old.dtqs ≡ None }
        requires task { is_handler ctx ≡ false }
        requires caller { MayCall self.old ctx }
        requires now { self.old.clock.now < 2 ^ 60 }
        requires ranks { self.old.tasks.next_rank < 2 ^ 60 }
        ensures does { Does self.new result (done_by_queues self.old ctx (trcv_dtq self.old.dtqs dtq tmo (caller ctx) (priority_in self.old ctx) self.old.tasks.next_rank) (AWaitReason.Receive dtq) tmo no) }
        ensures few { length result.ends.items ≤ 1 }
    {
        let pri = self.priority_in(ctx);
        let rank = self.tasks.next_rank();
        let synced = self.dtqs.trcv_dtq(dtq, tmo, ctx.caller(), pri, rank);
        self.answer_or_hand_over(ctx, synced, WaitReason::Receive(dtq), tmo, no)
    }

    /// Gives a task a priority (µITRON4.0 section 4.1, `chg_pri`); its call that waits by priority is the last there.
    fn chg_pri(&mut self, ctx: Ctx, task: TaskId, pri: u32) -> Done
        requires ranks { self.old.tasks.next_rank < 2 ^ 60 }
        ensures does { Does self.new result (reprioritised self.old ctx task (chg_pri self.old.tasks ctx task pri)) }
        ensures few { length result.ends.items ≤ 1 }
    {
        let did = self.tasks.chg_pri(ctx, task, pri);
        let done = self.finish(ctx, did);
        if !did.code.0.is_negative() {
            self.move_last(named(ctx, task));
        }
        done
    }
}
