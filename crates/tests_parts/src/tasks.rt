//! Tasks step by step: what each call comes to.

ghost use Rattle.std.specs.Prelude.{◌≡◌, IfOk, true};
ghost use Rattle.spec_lists.specs.Tables.{empty_table};
ghost use Rattle.spec_kernel.specs.Ids.{greatest_id};
ghost use Rattle.spec_kernel.specs.Ids.{are_new_ids, task_id};
ghost use Rattle.spec_kernel.specs.TaskOpening.{block_at_start};

use it_types::{
    Ctx, E_ID, E_ILUSE, E_NOEXS, E_OBJ, E_OK, E_PAR, Er, List, NoMemory, TaskConf, TaskDecl,
    TaskId, Tmo,
};
use k_task::{Did, Tasks};
use std::alloc::Global;
use std::process::Abort;
use std::test::*;

const FIRST: TaskDecl = TaskDecl {
    id: 1,
    pri: 5,
    act: true,
};

const DORMANT: TaskDecl = TaskDecl {
    id: 2,
    pri: 3,
    act: false,
};

const THIRD: TaskDecl = TaskDecl {
    id: 16,
    pri: 5,
    act: true,
};

// Tasks 1 and 16 of priority 5 are active, and task 2 of priority 3 isn't.
fn three_tasks(alloc: Global) -> Result<TaskConf, NoMemory>
    ensures { IfOk result (λ c. are_new_ids task_id block_at_start (empty_table greatest_id) c.tasks ≡ true) }
{
    Ok(TaskConf {
        tasks: List::from_vec(vec![in alloc; FIRST, DORMANT, THIRD]?),
    })
}

/// What a task or a handler does.
#[derive(Clone, Copy, Debug)]
enum Step {
    Activate(u32),
    CancelActivations(u32),
    Exit,
    Terminate(u32),
    GivePriority(u32, u32),
    TellPriority(u32),
    Rotate(u32),
    TellWhoRuns,
    Sleep(Tmo),
    Delay,
    WakeUp(u32),
    CancelWakeups(u32),
    Release(u32),
    Suspend(u32),
    Resume(u32),
    ForceResume(u32),
    /// A task waits for something else.
    Wait(u32),
    /// The wait of a task is over.
    Wake(u32),
}

const DONE: Did = Did {
    code: E_OK,
    value: None,
    wait: false,
    freed: None,
    gone: None,
    begun: None,
};

const WAITS: Did = Did { wait: true, ..DONE };

fn coded(code: Er) -> Did {
    Did { code, ..DONE }
}

fn valued(value: u32) -> Did {
    Did {
        value: Some(value),
        ..DONE
    }
}

fn freed(task: u32) -> Did {
    Did {
        freed: Some(TaskId(task)),
        ..DONE
    }
}

fn gone(task: u32) -> Did {
    Did {
        gone: Some(TaskId(task)),
        ..DONE
    }
}

fn begun(task: u32) -> Did {
    Did {
        begun: Some(TaskId(task)),
        ..DONE
    }
}

fn carry_out(tasks: &mut Tasks, ctx: Ctx, step: Step) -> Did {
    match step {
        Step::Activate(task) => tasks.act_tsk(ctx, TaskId(task)),
        Step::CancelActivations(task) => tasks.can_act(ctx, TaskId(task)),
        Step::Exit => tasks.ext_tsk(ctx),
        Step::Terminate(task) => tasks.ter_tsk(ctx, TaskId(task)),
        Step::GivePriority(task, pri) => tasks.chg_pri(ctx, TaskId(task), pri),
        Step::TellPriority(task) => tasks.get_pri(ctx, TaskId(task)),
        Step::Rotate(pri) => tasks.rot_rdq(ctx, pri),
        Step::TellWhoRuns => tasks.get_tid(ctx),
        Step::Sleep(tmo) => tasks.tslp_tsk(ctx, tmo),
        Step::Delay => tasks.dly_tsk(ctx, 5),
        Step::WakeUp(task) => tasks.wup_tsk(ctx, TaskId(task)),
        Step::CancelWakeups(task) => tasks.can_wup(ctx, TaskId(task)),
        Step::Release(task) => tasks.rel_wai(ctx, TaskId(task)),
        Step::Suspend(task) => tasks.sus_tsk(ctx, TaskId(task)),
        Step::Resume(task) => tasks.rsm_tsk(ctx, TaskId(task)),
        Step::ForceResume(task) => tasks.frsm_tsk(ctx, TaskId(task)),
        Step::Wait(task) => {
            tasks.wait(TaskId(task));
            DONE
        }
        Step::Wake(task) => {
            tasks.wake(TaskId(task));
            DONE
        }
    }
}

fn expect_same(rt: &impl Abort, did: &Did, told: &Did, what: &Step) {
    assert_eq!(rt; did.code, told.code, "{what:?}");
    assert_eq!(rt; did.value, told.value, "{what:?}");
    assert_eq!(rt; did.wait, told.wait, "{what:?}");
    assert_eq!(rt; did.freed, told.freed, "{what:?}");
    assert_eq!(rt; did.gone, told.gone, "{what:?}");
    assert_eq!(rt; did.begun, told.begun, "{what:?}");
}

/// Each step of the running task in turn, from the three tasks on, comes to what is told of it, and leaves that task running.
fn expect_steps(
    rt: &impl Abort,
    alloc: Global,
    steps: &[(Step, Did, u32)],
) -> Result<(), NoMemory> {
    let conf = three_tasks(alloc)?;
    let mut tasks = Tasks::open(alloc, &conf)?;
    for (step, told, runs) in steps {
        let ctx = Ctx::Task(tasks.running());
        let did = carry_out(&mut tasks, ctx, *step);
        expect_same(rt, &did, told, step);
        assert_eq!(rt; tasks.running(), TaskId(*runs), "{step:?}");
    }
    Ok(())
}

#[test]
fn opens_with_ample_memory(rt: HostRuntime) -> Result<(), Fail> {
    let conf = three_tasks(rt.alloc())?;
    let mut tasks = Tasks::open(rt.alloc(), &conf)?;
    assert_eq!(rt; tasks.running(), TaskId(1));
    assert_eq!(rt; tasks.pri(TaskId(1)), 5);
    assert_eq!(rt; tasks.pri(TaskId(2)), 3);
    assert_eq!(rt; tasks.pri(TaskId(16)), 5);
    assert_eq!(rt; tasks.pri(TaskId(3)), 0);
    expect_same(
        &rt,
        &tasks.can_act(Ctx::Handler, TaskId(2)),
        &DONE,
        &Step::CancelActivations(2),
    );
    Ok(())
}

#[test]
fn tasks_begin_and_end(rt: HostRuntime) -> Result<(), Fail> {
    let steps = [
        (Step::Activate(2), begun(2), 2),
        (Step::Activate(0), DONE, 2),
        (Step::Activate(1), DONE, 2),
        (
            Step::Exit,
            Did {
                begun: Some(TaskId(2)),
                ..gone(2)
            },
            2,
        ),
        (Step::CancelActivations(2), DONE, 2),
        (Step::CancelActivations(1), coded(Er(1)), 2),
        (Step::Terminate(2), coded(E_ILUSE), 2),
        (Step::Terminate(16), gone(16), 2),
        (Step::Terminate(16), coded(E_OBJ), 2),
        (Step::Exit, gone(2), 1),
        (Step::Exit, gone(1), 0),
    ];
    expect_steps(&rt, rt.alloc(), &steps)?;
    Ok(())
}

#[test]
fn equals_take_turns(rt: HostRuntime) -> Result<(), Fail> {
    let steps = [
        (Step::TellWhoRuns, valued(1), 1),
        (Step::Rotate(0), DONE, 16),
        (Step::GivePriority(16, 5), DONE, 1),
        (Step::GivePriority(0, 17), coded(E_PAR), 1),
        (Step::GivePriority(1, 16), DONE, 16),
        (Step::TellPriority(1), valued(16), 16),
        (Step::GivePriority(1, 0), DONE, 16),
        (Step::TellPriority(1), valued(5), 16),
        (Step::TellPriority(2), coded(E_OBJ), 16),
        (Step::Rotate(17), coded(E_PAR), 16),
    ];
    expect_steps(&rt, rt.alloc(), &steps)?;
    Ok(())
}

#[test]
fn tasks_sleep_and_wait(rt: HostRuntime) -> Result<(), Fail> {
    let steps = [
        (Step::WakeUp(1), DONE, 1),
        (Step::Sleep(Tmo::Fevr), DONE, 1),
        (Step::Sleep(Tmo::Pol), WAITS, 1),
        (Step::Sleep(Tmo::Nblk), coded(E_PAR), 1),
        (Step::Sleep(Tmo::Ms(1)), WAITS, 16),
        (Step::WakeUp(1), freed(1), 16),
        (Step::Wake(1), DONE, 16),
        (Step::CancelWakeups(1), DONE, 16),
        (Step::Delay, WAITS, 1),
        (Step::WakeUp(16), DONE, 1),
        (Step::CancelWakeups(16), coded(Er(1)), 1),
        (Step::Release(1), coded(E_OBJ), 1),
        (Step::Release(16), freed(16), 1),
        (Step::Wait(1), DONE, 16),
        (Step::Release(1), freed(1), 16),
        (Step::Release(17), coded(E_ID), 16),
        (Step::Release(3), coded(E_NOEXS), 16),
    ];
    expect_steps(&rt, rt.alloc(), &steps)?;
    Ok(())
}

#[test]
fn suspensions_are_counted(rt: HostRuntime) -> Result<(), Fail> {
    let steps = [
        (Step::Resume(16), coded(E_OBJ), 1),
        (Step::Suspend(0), DONE, 16),
        (Step::Suspend(1), DONE, 16),
        (Step::Resume(1), DONE, 16),
        (Step::Suspend(1), DONE, 16),
        (Step::ForceResume(1), DONE, 16),
        (Step::Exit, gone(16), 1),
        (Step::ForceResume(16), coded(E_OBJ), 1),
        (Step::Suspend(2), coded(E_OBJ), 1),
    ];
    expect_steps(&rt, rt.alloc(), &steps)?;
    Ok(())
}
