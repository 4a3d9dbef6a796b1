//! Semaphores that are opened with memory are those that were declared.

use it_types::{E_NOEXS, E_OK, Er, List, ObjId, SemDecl, SyncConf, Synced, TaskId, Tmo};
use k_sync::Sems;
use std::test::Fail;

/// The code of a call that is answered at once.
fn code_of(synced: &Synced) -> Option<Er> {
    match synced {
        Synced::Took(code, _) => Some(*code),
        Synced::Refused(code) => Some(*code),
        Synced::MustWait => None,
    }
}

#[test]
fn declared_counts_are_taken(rt: HostRuntime) -> Result<(), Fail> {
    let decls = [SemDecl {
        id: 3,
        pri: false,
        init: 1,
        max: 2,
    }];
    let conf = SyncConf {
        sems: List::of(rt.alloc(), &decls)?,
        flags: List::new(rt.alloc()),
        dtqs: List::new(rt.alloc()),
    };
    let mut sems = Sems::open(rt.alloc(), &conf)?;
    let first = sems.twai_sem(ObjId(3), Tmo::Pol, TaskId(1), 5, 1);
    let second = sems.twai_sem(ObjId(3), Tmo::Pol, TaskId(1), 5, 2);
    let other = sems.twai_sem(ObjId(2), Tmo::Pol, TaskId(1), 5, 3);
    assert_eq!(rt; code_of(&first), Some(E_OK));
    assert_eq!(rt; code_of(&second), None);
    assert_eq!(rt; code_of(&other), Some(E_NOEXS));
    Ok(())
}

#[test]
fn a_signal_frees_the_task_that_waits(rt: HostRuntime) -> Result<(), Fail> {
    let decls = [SemDecl {
        id: 1,
        pri: true,
        init: 0,
        max: 1,
    }];
    let conf = SyncConf {
        sems: List::of(rt.alloc(), &decls)?,
        flags: List::new(rt.alloc()),
        dtqs: List::new(rt.alloc()),
    };
    let mut sems = Sems::open(rt.alloc(), &conf)?;
    let waits = sems.twai_sem(ObjId(1), Tmo::Fevr, TaskId(7), 5, 1);
    assert_eq!(rt; code_of(&waits), None);
    assert!(rt; sems.next_ready().is_none());
    let signals = sems.sig_sem(ObjId(1));
    assert_eq!(rt; code_of(&signals), Some(E_OK));
    match sems.next_ready() {
        Some((task, code, _)) => {
            assert_eq!(rt; task, TaskId(7));
            assert_eq!(rt; code, E_OK);
            sems.free(task);
        }
        None => assert!(rt; false, "nobody is freed"),
    }
    assert!(rt; sems.next_ready().is_none());
    assert!(rt; !sems.leave(TaskId(7)));
    Ok(())
}
