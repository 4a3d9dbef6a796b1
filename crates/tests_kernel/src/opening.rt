//! What a kernel can be opened with: the ends of all ranges, and what is just beyond them.

use it_types::{
    CycConf, CycDecl, DtqDecl, FlgDecl, KConf, List, NoMemory, SemDecl, SyncConf, TaskConf,
    TaskDecl, TaskId,
};
use k_core::{Kernel, is_declarable};
use std::alloc::Global;
use std::test::*;

fn task(id: u32, pri: u32) -> TaskDecl {
    TaskDecl {
        id,
        pri,
        act: false,
    }
}

fn semaphore(id: u32, init: u32, max: u32) -> SemDecl {
    SemDecl {
        id,
        pri: true,
        init,
        max,
    }
}

fn flag(id: u32) -> FlgDecl {
    FlgDecl {
        id,
        pri: true,
        many: false,
        clr: true,
        init: u32::MAX,
    }
}

fn queue(id: u32, cap: u32) -> DtqDecl {
    DtqDecl { id, pri: true, cap }
}

fn cyclic(id: u32, period: u32, phase: u32) -> CycDecl {
    CycDecl {
        id,
        period,
        phase,
        on: true,
    }
}

#[test]
fn the_ends_of_all_ranges_can_be_declared(rt: HostRuntime) -> Result<(), Fail> {
    assert!(rt;
        is_declarable(
            &[task(1, 1), task(16, 16)],
            &[semaphore(1, 0, 1), semaphore(16, 65535, 65535)],
            &[flag(1), flag(16)],
            &[queue(1, 0), queue(16, 1024)],
            &[cyclic(1, 1, 0), cyclic(8, 1000000, 1000000)],
        )
    );
    assert!(rt; is_declarable(&[], &[], &[], &[], &[]));
    Ok(())
}

fn are_tasks(decls: &[TaskDecl]) -> bool {
    is_declarable(decls, &[], &[], &[], &[])
}

#[test]
fn tasks_out_of_range_are_refused(rt: HostRuntime) -> Result<(), Fail> {
    assert!(rt; !are_tasks(&[task(0, 1)]));
    assert!(rt; !are_tasks(&[task(17, 1)]));
    assert!(rt; !are_tasks(&[task(1, 0)]));
    assert!(rt; !are_tasks(&[task(1, 1), task(2, 17)]));
    assert!(rt; !are_tasks(&[task(2, 1), task(1, 1), task(2, 3)]));
    Ok(())
}

fn are_semaphores(decls: &[SemDecl]) -> bool {
    is_declarable(&[], decls, &[], &[], &[])
}

#[test]
fn semaphores_out_of_range_are_refused(rt: HostRuntime) -> Result<(), Fail> {
    assert!(rt; !are_semaphores(&[semaphore(0, 0, 1)]));
    assert!(rt; !are_semaphores(&[semaphore(17, 0, 1)]));
    assert!(rt; !are_semaphores(&[semaphore(1, 2, 1)]));
    assert!(rt; !are_semaphores(&[semaphore(1, 0, 0)]));
    assert!(rt; !are_semaphores(&[semaphore(1, 0, 65536)]));
    assert!(rt; !are_semaphores(&[semaphore(1, 0, 1), semaphore(1, 1, 1)]));
    Ok(())
}

fn are_flags(decls: &[FlgDecl]) -> bool {
    is_declarable(&[], &[], decls, &[], &[])
}

#[test]
fn flags_out_of_range_are_refused(rt: HostRuntime) -> Result<(), Fail> {
    assert!(rt; !are_flags(&[flag(0)]));
    assert!(rt; !are_flags(&[flag(1), flag(17)]));
    assert!(rt; !are_flags(&[flag(16), flag(16)]));
    Ok(())
}

fn are_queues(decls: &[DtqDecl]) -> bool {
    is_declarable(&[], &[], &[], decls, &[])
}

#[test]
fn data_queues_out_of_range_are_refused(rt: HostRuntime) -> Result<(), Fail> {
    assert!(rt; !are_queues(&[queue(0, 1)]));
    assert!(rt; !are_queues(&[queue(17, 1)]));
    assert!(rt; !are_queues(&[queue(1, 1025)]));
    assert!(rt; !are_queues(&[queue(1, 0), queue(1, 1)]));
    Ok(())
}

fn are_cyclic_handlers(decls: &[CycDecl]) -> bool {
    is_declarable(&[], &[], &[], &[], decls)
}

#[test]
fn cyclic_handlers_out_of_range_are_refused(rt: HostRuntime) -> Result<(), Fail> {
    assert!(rt; !are_cyclic_handlers(&[cyclic(0, 1, 0)]));
    assert!(rt; !are_cyclic_handlers(&[cyclic(9, 1, 0)]));
    assert!(rt; !are_cyclic_handlers(&[cyclic(1, 0, 0)]));
    assert!(rt; !are_cyclic_handlers(&[cyclic(1, 1000001, 0)]));
    assert!(rt; !are_cyclic_handlers(&[cyclic(1, 1, 1000001)]));
    assert!(rt; !are_cyclic_handlers(&[cyclic(8, 1, 0), cyclic(8, 2, 0)]));
    Ok(())
}

fn one_task(alloc: Global, decl: TaskDecl) -> Result<KConf, NoMemory> {
    Ok(KConf {
        tasks: TaskConf {
            tasks: List::from_vec(vec![in alloc; decl]?),
        },
        sync: SyncConf {
            sems: List::new(alloc),
            flags: List::new(alloc),
            dtqs: List::new(alloc),
        },
        cycs: CycConf {
            cycs: List::new(alloc),
        },
    })
}

#[test]
fn a_task_is_active_from_the_start_where_it_is_declared_so(rt: HostRuntime) -> Result<(), Fail> {
    let urgent = task(16, 1);
    for (act, runs) in [(false, TaskId(0)), (true, TaskId(16))] {
        let conf = one_task(rt.alloc(), TaskDecl { act, ..urgent })?;
        assert!(rt; Kernel::can_open(&conf));
        let kernel = Kernel::open(rt.alloc(), &conf)?;
        assert_eq!(rt; kernel.is_any_active(), act);
        assert_eq!(rt; kernel.running(), runs);
    }
    let conf = one_task(rt.alloc(), task(1, 17))?;
    assert!(rt; !Kernel::can_open(&conf));
    Ok(())
}
