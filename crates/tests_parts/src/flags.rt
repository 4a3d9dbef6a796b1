//! Event flags that are opened with memory are those that were declared.

use it_types::{E_ILUSE, E_NOEXS, E_OK, Er, FlgDecl, List, ObjId, SyncConf, Synced, TaskId, Tmo};
use k_sync::Flags;
use std::test::Fail;

/// The code of a call that is answered at once, and the last of its bytes, if it has some.
fn told(synced: &Synced) -> Option<(Er, Option<u8>)> {
    match synced {
        Synced::Took(code, bytes) => Some((*code, bytes.as_slice().last().copied())),
        Synced::Refused(code) => Some((*code, None)),
        Synced::MustWait => None,
    }
}

#[test]
fn declared_patterns_are_told_and_cleared(rt: HostRuntime) -> Result<(), Fail> {
    let decls = [FlgDecl {
        id: 16,
        pri: false,
        many: true,
        clr: true,
        init: 5,
    }];
    let conf = SyncConf {
        sems: List::new(rt.alloc()),
        flags: List::of(rt.alloc(), &decls)?,
        dtqs: List::new(rt.alloc()),
    };
    let mut flags = Flags::open(rt.alloc(), &conf)?;
    let all = flags.twai_flg(ObjId(16), 7, true, Tmo::Pol, TaskId(1), 5, 1);
    let one = flags.twai_flg(ObjId(16), 7, false, Tmo::Pol, TaskId(1), 5, 2);
    let again = flags.twai_flg(ObjId(16), 7, false, Tmo::Pol, TaskId(1), 5, 3);
    let other = flags.set_flg(ObjId(1), 1);
    assert_eq!(rt; told(&all), None);
    assert_eq!(rt; told(&one), Some((E_OK, Some(5))));
    assert_eq!(rt; told(&again), None);
    assert_eq!(rt; told(&other), Some((E_NOEXS, None)));
    Ok(())
}

#[test]
fn one_task_alone_waits(rt: HostRuntime) -> Result<(), Fail> {
    let decls = [FlgDecl {
        id: 1,
        pri: false,
        many: false,
        clr: false,
        init: 1,
    }];
    let conf = SyncConf {
        sems: List::new(rt.alloc()),
        flags: List::of(rt.alloc(), &decls)?,
        dtqs: List::new(rt.alloc()),
    };
    let mut flags = Flags::open(rt.alloc(), &conf)?;
    let waits = flags.twai_flg(ObjId(1), 2, false, Tmo::Fevr, TaskId(3), 5, 1);
    let second = flags.twai_flg(ObjId(1), 1, false, Tmo::Pol, TaskId(4), 5, 2);
    let clears = flags.clr_flg(ObjId(1), 0);
    let sets = flags.set_flg(ObjId(1), 6);
    assert_eq!(rt; told(&waits), None);
    assert_eq!(rt; told(&second), Some((E_ILUSE, None)));
    assert_eq!(rt; told(&clears), Some((E_OK, None)));
    assert_eq!(rt; told(&sets), Some((E_OK, None)));
    match flags.next_ready() {
        Some((task, code, bytes)) => {
            assert_eq!(rt; task, TaskId(3));
            assert_eq!(rt; code, E_OK);
            assert_eq!(rt; bytes.as_slice(), [0, 0, 0, 6].as_slice());
            flags.free(task);
        }
        None => assert!(rt; false, "nobody is freed"),
    }
    assert!(rt; flags.next_ready().is_none());
    Ok(())
}
