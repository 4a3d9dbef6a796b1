//! Data queues that are opened with memory keep and hand over items.

ghost use Rattle.std.specs.Prelude.{IfOk};
ghost use Rattle.spec_kernel.specs.PlainQueues.{AreDeclarable};

use it_types::{
    DtqDecl, E_ILUSE, E_NOEXS, E_OK, Er, List, NoMemory, ObjId, SyncConf, Synced, TaskId, Tmo,
};
use k_sync::Dtqs;
use std::alloc::Global;
use std::process::Abort;
use std::test::*;

/// A queue of two items, and one without capacity.
fn declared(alloc: Global) -> Result<SyncConf, NoMemory>
    ensures { IfOk result (λ conf. AreDeclarable conf.dtqs) }
{
    Ok(SyncConf {
        sems: List::new(alloc),
        flags: List::new(alloc),
        dtqs: List::of(
            alloc,
            &[
                DtqDecl {
                    id: 16,
                    pri: true,
                    cap: 2,
                },
                DtqDecl {
                    id: 3,
                    pri: false,
                    cap: 0,
                },
            ],
        )?,
    })
}

fn send(rt: &impl Abort, dtqs: &mut Dtqs, dtq: u32, item: u32) -> Synced {
    assert!(rt; dtqs.next_ready().is_none());
    dtqs.tsnd_dtq(ObjId(dtq), item, Tmo::Pol, TaskId(1), 5, 1)
}

fn force(rt: &impl Abort, dtqs: &mut Dtqs, dtq: u32, item: u32) -> Synced {
    assert!(rt; dtqs.next_ready().is_none());
    dtqs.fsnd_dtq(ObjId(dtq), item)
}

fn receive(rt: &impl Abort, dtqs: &mut Dtqs, dtq: u32) -> Synced {
    assert!(rt; dtqs.next_ready().is_none());
    dtqs.trcv_dtq(ObjId(dtq), Tmo::Pol, TaskId(1), 5, 1)
}

/// The call is met with these bytes.
fn is_met_with(synced: &Synced, bytes: &[u8]) -> bool {
    match synced {
        Synced::Took(code, small) => *code == E_OK && small.as_slice() == bytes,
        _ => false,
    }
}

fn is_refused(synced: &Synced, wanted: Er) -> bool {
    match synced {
        Synced::Refused(code) => *code == wanted,
        _ => false,
    }
}

#[test]
fn a_data_queue_keeps_its_items(rt: HostRuntime) -> Result<(), Fail> {
    let conf = declared(rt.alloc())?;
    let mut dtqs = Dtqs::open(rt.alloc(), &conf)?;
    assert!(rt; is_met_with(&send(&rt, &mut dtqs, 16, 16909060), &[]));
    assert!(rt; is_met_with(&send(&rt, &mut dtqs, 16, 7), &[]));
    assert!(rt; matches!(send(&rt, &mut dtqs, 16, 8), Synced::MustWait));
    assert!(rt; is_met_with(&receive(&rt, &mut dtqs, 16), &[1, 2, 3, 4]));
    assert!(rt; is_met_with(&force(&rt, &mut dtqs, 16, 9), &[]));
    assert!(rt; is_met_with(&force(&rt, &mut dtqs, 16, 10), &[]));
    assert!(rt; is_met_with(&receive(&rt, &mut dtqs, 16), &[0, 0, 0, 9]));
    assert!(rt; is_met_with(&receive(&rt, &mut dtqs, 16), &[0, 0, 0, 10]));
    assert!(rt; matches!(receive(&rt, &mut dtqs, 16), Synced::MustWait));
    assert!(rt; matches!(send(&rt, &mut dtqs, 3, 8), Synced::MustWait));
    assert!(rt; is_refused(&force(&rt, &mut dtqs, 3, 8), E_ILUSE));
    assert!(rt; is_refused(&receive(&rt, &mut dtqs, 1), E_NOEXS));
    assert!(rt; !dtqs.leave(TaskId(1)) && !dtqs.reprioritise(TaskId(1), 5, 2));
    Ok(())
}

#[test]
fn a_queue_without_capacity_hands_over(rt: HostRuntime) -> Result<(), Fail> {
    let conf = declared(rt.alloc())?;
    let mut dtqs = Dtqs::open(rt.alloc(), &conf)?;
    let waits = dtqs.trcv_dtq(ObjId(3), Tmo::Fevr, TaskId(7), 5, 1);
    assert!(rt; matches!(waits, Synced::MustWait));
    assert!(rt; is_met_with(&send(&rt, &mut dtqs, 3, 9), &[]));
    match dtqs.next_ready() {
        Some((task, code, bytes)) => {
            assert_eq!(rt; task, TaskId(7));
            assert_eq!(rt; code, E_OK);
            assert!(rt; bytes.as_slice() == [0, 0, 0, 9].as_slice());
            dtqs.free(task);
        }
        None => assert!(rt; false, "nobody is freed"),
    }
    assert!(rt; dtqs.next_ready().is_none());
    assert!(rt; matches!(send(&rt, &mut dtqs, 3, 9), Synced::MustWait));
    Ok(())
}
