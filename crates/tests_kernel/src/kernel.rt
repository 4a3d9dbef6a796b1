//! The kernel event by event: what each call, tick and end by time comes to.

ghost use Rattle.std.specs.Prelude.{IfOk};
ghost use Rattle.spec_kernel.specs.Opening.{IsDeclarable};

use it_types::{
    CallNo, Ctx, CycConf, CycDecl, DtqDecl, E_CTX, E_ILUSE, E_OK, E_QOVR, E_RLWAI, E_TMOUT, Er,
    FlgDecl, KConf, KReq, List, NoMemory, ObjId, SemDecl, SyncConf, TaskConf, TaskDecl, TaskId,
    Tmo,
};
use k_core::{Done, KAns, KEnd, Kernel};
use std::alloc::Global;
use std::process::Abort;
use std::test::*;

const PATIENT: TaskDecl = TaskDecl {
    id: 1,
    pri: 8,
    act: true,
};

const USUAL: TaskDecl = TaskDecl {
    id: 2,
    pri: 5,
    act: true,
};

const URGENT: TaskDecl = TaskDecl {
    id: 3,
    pri: 3,
    act: false,
};

const SEM: ObjId = ObjId(4);

const SEMAPHORE: SemDecl = SemDecl {
    id: 4,
    pri: true,
    init: 0,
    max: 1,
};

const CLEARED: ObjId = ObjId(5);

const CLEARED_FLAG: FlgDecl = FlgDecl {
    id: 5,
    pri: false,
    many: true,
    clr: true,
    init: 4,
};

const STAYS: ObjId = ObjId(16);

const STAYING_FLAG: FlgDecl = FlgDecl {
    id: 16,
    pri: false,
    many: true,
    clr: false,
    init: 0,
};

const QUEUE: ObjId = ObjId(6);

const DIRECT: DtqDecl = DtqDecl {
    id: 6,
    pri: false,
    cap: 0,
};

const RUNS: CycDecl = CycDecl {
    id: 8,
    period: 2,
    phase: 1,
    on: true,
};

const STANDS: CycDecl = CycDecl {
    id: 1,
    period: 3,
    phase: 0,
    on: false,
};

// Tasks 1 of priority 8 and 2 of priority 5 are active, and task 3 of priority 3 isn't. They wait at a semaphore by priority, at two
// flags, and at a data queue without capacity.
fn declared(alloc: Global) -> Result<KConf, NoMemory>
    ensures { IfOk result (λ c. IsDeclarable c) }
{
    Ok(KConf {
        tasks: TaskConf {
            tasks: List::from_vec(vec![in alloc; PATIENT, USUAL, URGENT]?),
        },
        sync: SyncConf {
            sems: List::from_vec(vec![in alloc; SEMAPHORE]?),
            flags: List::from_vec(vec![in alloc; CLEARED_FLAG, STAYING_FLAG]?),
            dtqs: List::from_vec(vec![in alloc; DIRECT]?),
        },
        cycs: CycConf {
            cycs: List::from_vec(vec![in alloc; RUNS, STANDS]?),
        },
    })
}

/// A kernel that is dropped by one call. By itself it is dropped part by part in each function that holds it.
struct Owned {
    kernel: Kernel,
}

impl Drop for Owned {
    fn drop(self) {
        let Owned { kernel: _ } = self;
    }
}

fn opened(alloc: Global) -> Result<Owned, NoMemory> {
    let conf = declared(alloc)?;
    Ok(Owned {
        kernel: Kernel::open(alloc, &conf)?,
    })
}

/// What a call is told to be answered.
#[derive(Clone, Copy, Debug)]
enum Answer {
    Code(Er),
    /// With `E_OK` and these bytes.
    Word([u8; 4]),
    Waits,
    Nothing,
}

/// The end of a call under this number that is told.
#[derive(Clone, Copy, Debug)]
struct End {
    call: u32,
    task: u32,
    code: Er,
    word: Option<[u8; 4]>,
    outside: bool,
}

/// What a call is told to come to; 0 is no task.
#[derive(Clone, Copy, Debug)]
struct Told {
    ans: Answer,
    ends: [Option<End>; 2],
    gone: u32,
    begun: u32,
}

const DONE: Told = Told {
    ans: Answer::Code(E_OK),
    ends: [None, None],
    gone: 0,
    begun: 0,
};

const WAITS: Told = Told {
    ans: Answer::Waits,
    ..DONE
};

fn coded(code: Er) -> Told {
    Told {
        ans: Answer::Code(code),
        ..DONE
    }
}

fn worded(word: [u8; 4]) -> Told {
    Told {
        ans: Answer::Word(word),
        ..DONE
    }
}

fn ended(call: u32, task: u32, code: Er) -> Option<End> {
    Some(End {
        call,
        task,
        code,
        word: None,
        outside: false,
    })
}

fn ended_with(call: u32, task: u32, word: [u8; 4]) -> Option<End> {
    Some(End {
        call,
        task,
        code: E_OK,
        word: Some(word),
        outside: false,
    })
}

/// The call of a task ends by another call, which is done.
fn ends(end: Option<End>) -> Told {
    Told {
        ends: [end, None],
        ..DONE
    }
}

fn has_word(bytes: &[u8], word: Option<[u8; 4]>) -> bool {
    match word {
        Some(word) => bytes == word.as_slice(),
        None => bytes.is_empty(),
    }
}

fn is_answered(ans: &KAns, told: Answer) -> bool {
    match (ans, told) {
        (KAns::Now(code, bytes), Answer::Code(told)) => {
            *code == told && has_word(bytes.as_slice(), None)
        }
        (KAns::Now(code, bytes), Answer::Word(word)) => {
            *code == E_OK && has_word(bytes.as_slice(), Some(word))
        }
        (KAns::Pends, Answer::Waits) | (KAns::Quiet, Answer::Nothing) => true,
        _ => false,
    }
}

fn expect_end(rt: &impl Abort, end: Option<&KEnd>, told: &Option<End>) {
    match (end, told) {
        (Some(end), Some(told)) => {
            assert_eq!(rt; end.call, CallNo(told.call));
            assert_eq!(rt; end.task, TaskId(told.task), "{told:?}");
            assert_eq!(rt; end.code, told.code, "{told:?}");
            assert!(rt; has_word(end.bytes.as_slice(), told.word), "{told:?}");
            assert_eq!(rt; end.outside, told.outside, "{told:?}");
        }
        (None, None) => {}
        _ => assert!(rt; false, "{told:?}"),
    }
}

fn expect_done(rt: &impl Abort, done: &Done, told: &Told, no: u32) {
    assert!(rt; is_answered(&done.ans, told.ans), "{no}");
    let ends = done.ends.as_slice();
    assert!(rt; ends.len() <= 2, "{no}");
    expect_end(rt, ends.first(), &told.ends[0]);
    expect_end(rt, ends.get(1), &told.ends[1]);
    assert_eq!(rt; done.gone, TaskId(told.gone), "{no}");
    assert_eq!(rt; done.begun, TaskId(told.begun), "{no}");
}

// The running task makes the call, or, where it is told as 0, a handler.
fn call(rt: &impl Abort, kernel: &mut Kernel, caller: u32, req: KReq, no: u32) -> Done {
    assert!(rt;
        kernel.is_above(CallNo(no)) && kernel.now() < 1 << 60,
        "{no}"
    );
    assert!(rt; kernel.next_rank() < 1 << 60, "{no}");
    if caller == 0 {
        return kernel.call(Ctx::Handler, &req, CallNo(no));
    }
    assert_eq!(rt; kernel.running(), TaskId(caller), "{no}");
    kernel.call(Ctx::Task(TaskId(caller)), &req, CallNo(no))
}

/// Each call of the task, or with 0 of a handler, under numbers from the first on, comes to what is told of it, and leaves that
/// task running.
fn expect_calls(
    rt: &impl Abort,
    kernel: &mut Kernel,
    first: u32,
    calls: &[(u32, KReq, Told, u32)],
) {
    for (no, (caller, req, told, runs)) in (first..u32::MAX).zip(calls) {
        let done = call(rt, kernel, *caller, *req, no);
        expect_done(rt, &done, told, no);
        assert_eq!(rt; kernel.running(), TaskId(*runs), "{no}");
    }
}

/// Each call comes to what is told of it, as above, of a kernel right after its opening and under numbers from 1 on.
fn expect_from_the_start(
    rt: &impl Abort,
    alloc: Global,
    calls: &[(u32, KReq, Told, u32)],
) -> Result<(), NoMemory> {
    let mut owned = opened(alloc)?;
    expect_calls(rt, &mut owned.kernel, 1, calls);
    Ok(())
}

/// At the next tick these handlers come due.
fn expect_tick(rt: &impl Abort, kernel: &mut Kernel, handlers: &[ObjId]) {
    assert!(rt; kernel.now() < 1 << 60);
    let tick = kernel.now() + 1;
    let came_due = kernel.tick();
    assert_eq!(rt; came_due.as_slice(), handlers, "{tick}");
    assert_eq!(rt; kernel.now(), tick);
}

/// The next call that ends by time is the one that is told, which leaves that task running.
fn expect_due(rt: &impl Abort, kernel: &mut Kernel, told: Option<End>, runs: u32) {
    let due = kernel.due();
    expect_end(rt, due.as_ref(), &told);
    assert_eq!(rt; kernel.running(), TaskId(runs), "{told:?}");
}

/// The running task waits for a call of the network part.
fn block(rt: &impl Abort, kernel: &mut Kernel, task: u32, ticks: u32, no: u32) {
    assert!(rt; task > 0 && kernel.running() == TaskId(task), "{no}");
    assert!(rt;
        kernel.is_above(CallNo(no)) && kernel.now() < 1 << 60,
        "{no}"
    );
    assert!(rt; kernel.next_rank() < 1 << 60, "{no}");
    kernel.block(TaskId(task), Tmo::Ms(ticks), CallNo(no));
    assert!(rt; kernel.running() != TaskId(task), "{no}");
}

fn wait_for_semaphore(tmo: Tmo) -> KReq {
    KReq::TwaiSem { sem: SEM, tmo }
}

fn wait_for_flag(flg: ObjId, bits: u32, all: bool, tmo: Tmo) -> KReq {
    KReq::TwaiFlg {
        flg,
        bits,
        all,
        tmo,
    }
}

fn send(item: u32, tmo: Tmo) -> KReq {
    KReq::TsndDtq {
        dtq: QUEUE,
        item,
        tmo,
    }
}

fn receive(tmo: Tmo) -> KReq {
    KReq::TrcvDtq { dtq: QUEUE, tmo }
}

fn wake_up(task: u32) -> KReq {
    KReq::WupTsk { task: TaskId(task) }
}

fn begin(task: u32) -> KReq {
    KReq::ActTsk { task: TaskId(task) }
}

fn set(flg: ObjId, bits: u32) -> KReq {
    KReq::SetFlg { flg, bits }
}

const SIGNAL: KReq = KReq::SigSem { sem: SEM };

const SLEEP: KReq = KReq::TslpTsk { tmo: Tmo::Fevr };

const BEGINS: Told = Told { begun: 3, ..DONE };

const EXITS: Told = Told {
    ans: Answer::Nothing,
    gone: 3,
    ..DONE
};

#[test]
fn a_handler_frees_the_more_urgent_task(rt: HostRuntime) -> Result<(), Fail> {
    let calls = [
        (2, wait_for_semaphore(Tmo::Fevr), WAITS, 1),
        (0, begin(3), BEGINS, 3),
        (3, wait_for_semaphore(Tmo::Ms(9)), WAITS, 1),
        (0, SIGNAL, ends(ended(3, 3, E_OK)), 3),
        (3, wait_for_semaphore(Tmo::Pol), coded(E_TMOUT), 3),
        (3, wait_for_semaphore(Tmo::Fevr), WAITS, 1),
        (1, SIGNAL, ends(ended(6, 3, E_OK)), 3),
        (3, KReq::ExtTsk, EXITS, 1),
        (0, SIGNAL, ends(ended(1, 2, E_OK)), 2),
        (0, SIGNAL, DONE, 2),
        (0, SIGNAL, coded(E_QOVR), 2),
        (2, wait_for_semaphore(Tmo::Fevr), DONE, 2),
    ];
    expect_from_the_start(&rt, rt.alloc(), &calls)?;
    Ok(())
}

#[test]
fn a_cleared_flag_frees_the_first(rt: HostRuntime) -> Result<(), Fail> {
    let calls = [
        (2, wait_for_flag(CLEARED, 3, false, Tmo::Fevr), WAITS, 1),
        (1, wait_for_flag(CLEARED, 2, true, Tmo::Fevr), WAITS, 0),
        (0, set(CLEARED, 2), ends(ended_with(1, 2, [0, 0, 0, 6])), 2),
        (
            2,
            wait_for_flag(CLEARED, 7, false, Tmo::Pol),
            coded(E_TMOUT),
            2,
        ),
        (0, set(CLEARED, 2), ends(ended_with(2, 1, [0, 0, 0, 2])), 2),
        (2, set(CLEARED, 258), DONE, 2),
        (
            2,
            wait_for_flag(CLEARED, 258, true, Tmo::Fevr),
            worded([0, 0, 1, 2]),
            2,
        ),
    ];
    expect_from_the_start(&rt, rt.alloc(), &calls)?;
    Ok(())
}

#[test]
fn a_flag_that_stays_frees_both(rt: HostRuntime) -> Result<(), Fail> {
    let both = Told {
        ends: [
            ended_with(1, 2, [0, 0, 0, 3]),
            ended_with(2, 1, [0, 0, 0, 3]),
        ],
        ..DONE
    };
    let calls = [
        (2, wait_for_flag(STAYS, 3, true, Tmo::Fevr), WAITS, 1),
        (1, wait_for_flag(STAYS, 2, false, Tmo::Fevr), WAITS, 0),
        (0, set(STAYS, 1), DONE, 0),
        (0, set(STAYS, 2), both, 2),
        (
            2,
            KReq::ClrFlg {
                flg: STAYS,
                bits: 1,
            },
            DONE,
            2,
        ),
        (
            2,
            wait_for_flag(STAYS, 3, false, Tmo::Pol),
            worded([0, 0, 0, 1]),
            2,
        ),
    ];
    expect_from_the_start(&rt, rt.alloc(), &calls)?;
    Ok(())
}

#[test]
fn sender_and_receiver_meet(rt: HostRuntime) -> Result<(), Fail> {
    let handed = Told {
        ends: [ended(3, 2, E_OK), None],
        ..worded([0, 0, 0, 7])
    };
    let calls = [
        (2, receive(Tmo::Fevr), WAITS, 1),
        (
            1,
            send(16909060, Tmo::Fevr),
            ends(ended_with(1, 2, [1, 2, 3, 4])),
            2,
        ),
        (2, send(7, Tmo::Ms(9)), WAITS, 1),
        (1, receive(Tmo::Pol), handed, 2),
        (2, receive(Tmo::Ms(9)), WAITS, 1),
        (
            0,
            send(258, Tmo::Pol),
            ends(ended_with(5, 2, [0, 0, 1, 2])),
            2,
        ),
        (0, send(258, Tmo::Pol), coded(E_TMOUT), 2),
        (
            0,
            KReq::FsndDtq {
                dtq: QUEUE,
                item: 7,
            },
            coded(E_ILUSE),
            2,
        ),
    ];
    expect_from_the_start(&rt, rt.alloc(), &calls)?;
    Ok(())
}

#[test]
fn a_handler_wakes_a_sleeper(rt: HostRuntime) -> Result<(), Fail> {
    let calls = [
        (2, KReq::TslpTsk { tmo: Tmo::Ms(9) }, WAITS, 1),
        (0, wake_up(2), ends(ended(1, 2, E_OK)), 2),
        (0, wake_up(2), DONE, 2),
        (2, SLEEP, DONE, 2),
        (2, SLEEP, WAITS, 1),
        (1, wake_up(2), ends(ended(5, 2, E_OK)), 2),
        (2, SLEEP, WAITS, 1),
        (
            0,
            KReq::RelWai { task: TaskId(2) },
            ends(ended(7, 2, E_RLWAI)),
            2,
        ),
    ];
    expect_from_the_start(&rt, rt.alloc(), &calls)?;
    Ok(())
}

#[test]
fn calls_of_one_tick_end_by_their_numbers(rt: HostRuntime) -> Result<(), Fail> {
    let mut owned = opened(rt.alloc())?;
    let kernel = &mut owned.kernel;
    let less_urgent = KReq::ChgPri {
        task: TaskId(2),
        pri: 6,
    };
    let calls = [
        (2, wait_for_semaphore(Tmo::Ms(1)), WAITS, 1),
        (1, KReq::DlyTsk { ms: 1 }, WAITS, 0),
        (0, begin(3), BEGINS, 3),
        (3, less_urgent, DONE, 3),
        (3, KReq::ExtTsk, EXITS, 0),
    ];
    expect_calls(&rt, kernel, 1, &calls);
    expect_tick(&rt, kernel, &[]);
    expect_due(&rt, kernel, None, 0);
    expect_tick(&rt, kernel, &[ObjId(8)]);
    expect_due(&rt, kernel, ended(1, 2, E_TMOUT), 2);
    expect_due(&rt, kernel, ended(2, 1, E_OK), 2);
    expect_due(&rt, kernel, None, 2);
    expect_calls(&rt, kernel, 6, &[(0, SIGNAL, DONE, 2)]);
    Ok(())
}

#[test]
fn cyclic_handlers_come_due(rt: HostRuntime) -> Result<(), Fail> {
    let mut owned = opened(rt.alloc())?;
    let kernel = &mut owned.kernel;
    let start = KReq::StaCyc { cyc: ObjId(1) };
    let stop = KReq::StpCyc { cyc: ObjId(8) };
    expect_calls(
        &rt,
        kernel,
        1,
        &[(0, start, coded(E_CTX), 2), (2, start, DONE, 2)],
    );
    expect_tick(&rt, kernel, &[]);
    expect_tick(&rt, kernel, &[ObjId(8)]);
    expect_tick(&rt, kernel, &[]);
    expect_tick(&rt, kernel, &[ObjId(1), ObjId(8)]);
    expect_calls(&rt, kernel, 1, &[(2, stop, DONE, 2)]);
    expect_tick(&rt, kernel, &[]);
    expect_tick(&rt, kernel, &[]);
    expect_tick(&rt, kernel, &[ObjId(1)]);
    Ok(())
}

#[test]
fn a_handler_may_not_wait(rt: HostRuntime) -> Result<(), Fail> {
    let mut owned = opened(rt.alloc())?;
    let kernel = &mut owned.kernel;
    let refused = coded(E_CTX);
    let calls = [
        (0, SIGNAL, DONE, 2),
        (0, wait_for_semaphore(Tmo::Fevr), refused, 2),
        (0, wait_for_semaphore(Tmo::Pol), refused, 2),
        (0, wait_for_flag(CLEARED, 4, false, Tmo::Fevr), refused, 2),
        (0, send(7, Tmo::Ms(9)), refused, 2),
        (0, receive(Tmo::Pol), refused, 2),
        (0, SLEEP, refused, 2),
        (0, KReq::DlyTsk { ms: 1 }, refused, 2),
        (2, wait_for_semaphore(Tmo::Pol), DONE, 2),
        (
            2,
            wait_for_flag(CLEARED, 4, false, Tmo::Pol),
            worded([0, 0, 0, 4]),
            2,
        ),
    ];
    expect_calls(&rt, kernel, 1, &calls);
    assert!(rt; kernel.is_above(CallNo(1)));
    Ok(())
}

#[test]
fn only_a_blocked_task_is_unblocked(rt: HostRuntime) -> Result<(), Fail> {
    let mut owned = opened(rt.alloc())?;
    let kernel = &mut owned.kernel;
    expect_calls(&rt, kernel, 1, &[(2, SLEEP, WAITS, 1)]);
    assert!(rt; !kernel.unblock(TaskId(2)));
    assert_eq!(rt; kernel.running(), TaskId(1));
    block(&rt, kernel, 1, 0, 2);
    assert_eq!(rt; kernel.running(), TaskId(0));
    assert!(rt; kernel.unblock(TaskId(1)));
    assert_eq!(rt; kernel.running(), TaskId(1));
    assert!(rt; !kernel.unblock(TaskId(1)));
    expect_tick(&rt, kernel, &[]);
    expect_due(&rt, kernel, None, 1);
    expect_calls(
        &rt,
        kernel,
        3,
        &[(0, wake_up(2), ends(ended(1, 2, E_OK)), 2)],
    );
    Ok(())
}

#[test]
fn a_blocked_task_waits_no_longer_than_told(rt: HostRuntime) -> Result<(), Fail> {
    let mut owned = opened(rt.alloc())?;
    let kernel = &mut owned.kernel;
    block(&rt, kernel, 2, 1, 1);
    expect_calls(&rt, kernel, 2, &[(0, wake_up(2), DONE, 1)]);
    expect_tick(&rt, kernel, &[]);
    expect_due(&rt, kernel, None, 1);
    expect_tick(&rt, kernel, &[ObjId(8)]);
    let late = End {
        call: 1,
        task: 2,
        code: E_TMOUT,
        word: None,
        outside: true,
    };
    expect_due(&rt, kernel, Some(late), 2);
    expect_due(&rt, kernel, None, 2);
    Ok(())
}
