use it_types::{
    Ans, Bytes, CallNo, CepId, Conf, Ctx, CycDecl, DtqDecl, E_BOVR, E_CTX, E_NOSPT, E_OK, EndPt,
    Entry, Er, Event, FlgDecl, List, NoMemory, NodeConf, NodeId, ObjId, PackNo, RepId, Req,
    SemDecl, TaskDecl, TaskId, Tmo,
};
use std::alloc::Global;
use std::process::Abort;
use std::test::*;
use w_world::{WErr, World};

// A node with this address and tasks.
fn node_with(alloc: Global, addr: u32, tasks: List<TaskDecl>) -> NodeConf {
    let mut node = NodeConf::new(alloc, addr);
    node.tasks = tasks;
    node
}

fn active(id: u32) -> TaskDecl {
    TaskDecl {
        id,
        pri: id,
        act: true,
    }
}

// Node 0 at 10.0.0.1 with the tasks 1 and 2, of which 1 is the more urgent, and node 1 at 10.0.0.2 with the task 1.
fn two_nodes(alloc: Global) -> Result<Conf, NoMemory> {
    let both = List::from_vec(vec![in alloc; active(1), active(2)]?);
    let one = List::from_vec(vec![in alloc; active(1)]?);
    Ok(Conf {
        nodes: [
            node_with(alloc, 0x0a000001, both),
            node_with(alloc, 0x0a000002, one),
        ],
    })
}

fn two_nodes_opened(rt: &impl Abort, alloc: Global) -> Result<World, NoMemory> {
    let conf = two_nodes(alloc)?;
    assert!(rt; World::can_open(&conf));
    World::open(alloc, &conf)
}

fn call(node: u8, task: u32, request: Req) -> Event {
    Event::Call(NodeId(node), Ctx::Task(TaskId(task)), request)
}

fn returns(node: u8, task: u32) -> Event {
    Event::Return(NodeId(node), TaskId(task))
}

// The event is refused, and the history stays.
fn refuse(rt: &impl Abort, alloc: Global, world: &mut World, ev: Event, why: WErr) {
    let entries = world.log().len();
    assert_eq!(rt; world.step(alloc, ev), Err(why));
    assert_eq!(rt; world.log().len(), entries);
}

// The event gives the history one entry more.
fn take(rt: &impl Abort, alloc: Global, world: &mut World, ev: Event) {
    let entries = world.log().len();
    assert_eq!(rt; world.step(alloc, ev), Ok(()));
    assert_eq!(rt; world.log().len() - entries, 1);
}

// The last entry has this answer.
fn expect_answer(rt: &impl Abort, world: &World, code: Er, bytes: &[u8]) {
    match world.log().last() {
        Some(
            Entry {
                ans: Ans::Now(answer, told),
                ..
            },
        ) => {
            assert_eq!(rt; *answer, code);
            assert_eq!(rt; told.as_slice(), bytes);
        }
        _ => assert!(rt; false),
    }
}

// The last entry has the end of the call 1 with this answer, and no other.
fn expect_end(rt: &impl Abort, world: &World, code: Er, bytes: &[u8]) {
    match world.log().last() {
        Some(entry) => match entry.ends.as_slice() {
            [end] => {
                assert_eq!(rt; (end.call, end.code), (CallNo(1), code));
                assert_eq!(rt; end.bytes.as_slice(), bytes);
            }
            _ => assert!(rt; false),
        },
        None => assert!(rt; false),
    }
}

// The last entry has this packet, and no other.
fn expect_packet(rt: &impl Abort, world: &World, bytes: &[u8]) {
    match world.log().last() {
        Some(entry) => match entry.packs.as_slice() {
            [pack] => assert_eq!(rt; pack.as_slice(), bytes),
            _ => assert!(rt; false),
        },
        None => assert!(rt; false),
    }
}

// What no node admits before the first event.
fn refuse_what_is_not_admitted(rt: &impl Abort, alloc: Global, world: &mut World) {
    for ev in [
        Event::Tick(NodeId(2)),
        call(0, 2, Req::ExtTsk),
        call(2, 1, Req::ExtTsk),
        returns(0, 1),
        Event::Begin(NodeId(0)),
        Event::Finish(NodeId(0)),
    ] {
        refuse(rt, alloc, world, ev, WErr::NotAdmitted);
    }
}

// The world of any configuration with which one can be opened.
fn opened(alloc: Global, conf: &Conf) -> Result<Option<World>, NoMemory> {
    if World::can_open(conf) {
        Ok(Some(World::open(alloc, conf)?))
    } else {
        Ok(None)
    }
}

// The node can be opened beside a bare one, as the first and as the second, or it can't.
fn expect_opening(
    rt: &impl Abort,
    alloc: Global,
    node: &NodeConf,
    can: bool,
) -> Result<(), NoMemory> {
    let first = Conf {
        nodes: [node.copy(alloc)?, NodeConf::new(alloc, 0x0a000002)],
    };
    assert_eq!(rt; opened(alloc, &first)?.is_some(), can);
    let second = Conf {
        nodes: [NodeConf::new(alloc, 0x0a000002), node.copy(alloc)?],
    };
    assert_eq!(rt; opened(alloc, &second)?.is_some(), can);
    Ok(())
}

fn task(id: u32, pri: u32, act: bool) -> TaskDecl {
    TaskDecl { id, pri, act }
}

fn semaphore(id: u32, pri: bool, init: u32, max: u32) -> SemDecl {
    SemDecl { id, pri, init, max }
}

// A node with the task 1 and this one.
fn expect_task(rt: &impl Abort, alloc: Global, decl: TaskDecl, can: bool) -> Result<(), NoMemory> {
    let mut node = NodeConf::new(alloc, 0x0a000001);
    node.tasks = List::of(alloc, &[task(1, 1, true), decl])?;
    expect_opening(rt, alloc, &node, can)
}

// A node with the semaphore 1 and this one.
fn expect_semaphore(
    rt: &impl Abort,
    alloc: Global,
    decl: SemDecl,
    can: bool,
) -> Result<(), NoMemory> {
    let mut node = NodeConf::new(alloc, 0x0a000001);
    node.sems = List::of(alloc, &[semaphore(1, false, 0, 1), decl])?;
    expect_opening(rt, alloc, &node, can)
}

#[test]
fn tasks_are_declared_in_their_ranges(rt: HostRuntime) -> Result<(), Fail> {
    for (decl, can) in [
        (task(2, 1, true), true),
        (task(16, 16, true), true),
        (task(0, 1, true), false),
        (task(17, 1, true), false),
        (task(1, 2, true), false),
        (task(2, 0, true), false),
        (task(2, 17, true), false),
        (task(2, 1, false), true),
    ] {
        expect_task(&rt, rt.alloc(), decl, can)?;
    }
    Ok(())
}

#[test]
fn semaphores_are_declared_in_their_ranges(rt: HostRuntime) -> Result<(), Fail> {
    for (decl, can) in [
        (semaphore(2, false, 0, 1), true),
        (semaphore(16, false, 65535, 65535), true),
        (semaphore(0, false, 0, 1), false),
        (semaphore(17, false, 0, 1), false),
        (semaphore(1, false, 0, 1), false),
        (semaphore(2, true, 0, 1), true),
        (semaphore(2, false, 2, 1), false),
        (semaphore(2, false, 0, 0), false),
        (semaphore(2, false, 0, 65536), false),
    ] {
        expect_semaphore(&rt, rt.alloc(), decl, can)?;
    }
    Ok(())
}

#[test]
fn a_flag_is_declared_once(rt: HostRuntime) -> Result<(), Fail> {
    let mut node = NodeConf::new(rt.alloc(), 0x0a000001);
    expect_opening(&rt, rt.alloc(), &node, true)?;
    let flag = FlgDecl {
        id: 16,
        pri: true,
        many: true,
        clr: true,
        init: 1,
    };
    node.flags.push(flag)?;
    expect_opening(&rt, rt.alloc(), &node, true)?;
    node.flags.push(flag)?;
    expect_opening(&rt, rt.alloc(), &node, false)?;
    Ok(())
}

// A node with this data queue.
fn expect_queue(rt: &impl Abort, alloc: Global, decl: DtqDecl, can: bool) -> Result<(), NoMemory> {
    let mut node = NodeConf::new(alloc, 0x0a000001);
    node.dtqs.push(decl)?;
    expect_opening(rt, alloc, &node, can)
}

// A node with this cyclic handler.
fn expect_handler(
    rt: &impl Abort,
    alloc: Global,
    decl: CycDecl,
    can: bool,
) -> Result<(), NoMemory> {
    let mut node = NodeConf::new(alloc, 0x0a000001);
    node.cycs.push(decl)?;
    expect_opening(rt, alloc, &node, can)
}

#[test]
fn data_queues_and_cyclic_handlers_are_declared_in_their_ranges(
    rt: HostRuntime,
) -> Result<(), Fail> {
    for (cap, can) in [(0, true), (1024, true), (1025, false)] {
        let queue = DtqDecl {
            id: 1,
            pri: false,
            cap,
        };
        expect_queue(&rt, rt.alloc(), queue, can)?;
    }
    for (id, period, can) in [(8, 1, true), (9, 1, false), (8, 0, false)] {
        let handler = CycDecl {
            id,
            period,
            phase: 0,
            on: true,
        };
        expect_handler(&rt, rt.alloc(), handler, can)?;
    }
    Ok(())
}

#[test]
fn refused_events_change_nothing(rt: HostRuntime) -> Result<(), Fail> {
    let alloc = rt.alloc();
    let mut world = two_nodes_opened(&rt, alloc)?;
    refuse(
        &rt,
        alloc,
        &mut world,
        Event::Deliver(PackNo(0)),
        WErr::NoPacket,
    );
    refuse_what_is_not_admitted(&rt, alloc, &mut world);
    take(&rt, alloc, &mut world, call(0, 1, Req::DlyTsk { ms: 0 }));
    take(&rt, alloc, &mut world, Event::Tick(NodeId(0)));
    refuse(
        &rt,
        alloc,
        &mut world,
        call(0, 1, Req::ExtTsk),
        WErr::NotAdmitted,
    );
    take(&rt, alloc, &mut world, returns(0, 1));
    expect_answer(&rt, &world, E_OK, b"");
    take(&rt, alloc, &mut world, Event::Stop);
    refuse(
        &rt,
        alloc,
        &mut world,
        Event::Tick(NodeId(0)),
        WErr::Stopped,
    );
    assert!(rt; !world.full() && !world.ended());
    assert!(rt; world.node(NodeId(2)).is_none());
    Ok(())
}

#[test]
fn a_call_of_the_kernel_is_answered_with_its_bytes(rt: HostRuntime) -> Result<(), Fail> {
    let alloc = rt.alloc();
    let mut world = two_nodes_opened(&rt, alloc)?;
    take(&rt, alloc, &mut world, call(0, 1, Req::GetTid));
    expect_answer(&rt, &world, E_OK, b"\0\0\0\x01");
    Ok(())
}

#[test]
fn a_call_of_no_part_is_answered_at_once(rt: HostRuntime) -> Result<(), Fail> {
    let alloc = rt.alloc();
    let mut world = two_nodes_opened(&rt, alloc)?;
    let deletes = Req::TcpDelRep { rep: RepId(1) };
    take(&rt, alloc, &mut world, call(0, 1, deletes));
    expect_answer(&rt, &world, E_NOSPT, b"");
    Ok(())
}

fn by_handler(node: u8, request: Req) -> Event {
    Event::Call(NodeId(node), Ctx::Handler, request)
}

// Two nodes as above; node 0 has a cyclic handler too that is due at each tick.
fn two_nodes_with_a_handler(rt: &impl Abort, alloc: Global) -> Result<World, NoMemory> {
    let mut conf = two_nodes(alloc)?;
    conf.nodes[0].cycs.push(CycDecl {
        id: 1,
        period: 1,
        phase: 0,
        on: true,
    })?;
    assert!(rt; World::can_open(&conf));
    World::open(alloc, &conf)
}

// What node 0 refuses where a handler is due and none has begun.
fn refuse_what_waits_for_a_handler(rt: &impl Abort, alloc: Global, world: &mut World) {
    for ev in [
        call(0, 1, Req::GetTid),
        returns(0, 1),
        by_handler(0, Req::GetTid),
        Event::Finish(NodeId(0)),
        Event::Begin(NodeId(1)),
    ] {
        refuse(rt, alloc, world, ev, WErr::NotAdmitted);
    }
}

#[test]
fn handlers_come_before_tasks(rt: HostRuntime) -> Result<(), Fail> {
    let alloc = rt.alloc();
    let mut world = two_nodes_with_a_handler(&rt, alloc)?;
    take(&rt, alloc, &mut world, Event::Tick(NodeId(0)));
    refuse_what_waits_for_a_handler(&rt, alloc, &mut world);
    take(&rt, alloc, &mut world, Event::Begin(NodeId(0)));
    take(&rt, alloc, &mut world, by_handler(0, Req::GetTid));
    expect_answer(&rt, &world, E_OK, b"\0\0\0\x01");
    take(&rt, alloc, &mut world, by_handler(0, Req::DlyTsk { ms: 0 }));
    expect_answer(&rt, &world, E_CTX, b"");
    refuse(
        &rt,
        alloc,
        &mut world,
        call(0, 1, Req::GetTid),
        WErr::NotAdmitted,
    );
    // It is due again, and begins again only when it is over.
    take(&rt, alloc, &mut world, Event::Tick(NodeId(0)));
    refuse(
        &rt,
        alloc,
        &mut world,
        Event::Begin(NodeId(0)),
        WErr::NotAdmitted,
    );
    take(&rt, alloc, &mut world, Event::Finish(NodeId(0)));
    refuse_what_waits_for_a_handler(&rt, alloc, &mut world);
    take(&rt, alloc, &mut world, Event::Begin(NodeId(0)));
    take(&rt, alloc, &mut world, Event::Finish(NodeId(0)));
    take(&rt, alloc, &mut world, call(0, 1, Req::GetTid));
    Ok(())
}

// "hi" from 10.0.0.1:1000 to 10.0.0.2:2000.
const HI: &[u8] =
    b"\x45\x00\x00\x1e\x00\x00\x40\x00\x40\x11\x26\xcd\x0a\x00\x00\x01\x0a\x00\x00\x02\x03\xe8\x07\xd0\x00\x0a\x77\xb6hi";

// Its sender and its first byte.
const SHORT: &[u8] = b"\x0a\x00\x00\x01\x03\xe8h";

fn create(port: u16) -> Req {
    Req::UdpCreCep {
        cep: CepId(1),
        port,
        cbr: ObjId(0),
    }
}

fn send_hi(alloc: Global) -> Result<Req, NoMemory> {
    Ok(Req::UdpSndDat {
        cep: CepId(1),
        dest: EndPt {
            addr: 0x0a000002,
            port: 2000,
        },
        load: Bytes::of(alloc, b"hi")?,
        tmo: Tmo::Fevr,
    })
}

const RECEIVE: Req = Req::UdpRcvDat {
    cep: CepId(1),
    len: 1,
    tmo: Tmo::Fevr,
};

// A datagram goes from node 0 to node 1, where a task waits for it with room for one byte.
#[test]
fn a_datagram_reaches_the_other_node(rt: HostRuntime) -> Result<(), Fail> {
    let alloc = rt.alloc();
    let mut world = two_nodes_opened(&rt, alloc)?;
    take(&rt, alloc, &mut world, call(0, 1, create(1000)));
    take(&rt, alloc, &mut world, call(0, 1, send_hi(alloc)?));
    expect_answer(&rt, &world, Er(2), b"");
    expect_packet(&rt, &world, HI);
    assert_eq!(rt; world.packets(), 1);
    take(&rt, alloc, &mut world, call(1, 1, create(2000)));
    take(&rt, alloc, &mut world, call(1, 1, RECEIVE));
    take(&rt, alloc, &mut world, Event::Deliver(PackNo(0)));
    expect_end(&rt, &world, E_BOVR, SHORT);
    take(&rt, alloc, &mut world, returns(1, 1));
    expect_answer(&rt, &world, E_BOVR, SHORT);
    Ok(())
}
