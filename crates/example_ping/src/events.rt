use it_types::{
    Bytes, CepId, Ctx, EndPt, Event, NoMemory, NodeId, ObjId, PackNo, Req, TaskId, Tmo,
};
use std::alloc::Global;

const NEAR: NodeId = NodeId(0);

const FAR: NodeId = NodeId(1);

const TASK: TaskId = TaskId(1);

/// The port of both end points.
const PORT: u16 = 7;

/// The task 1 of the node makes a call.
fn call(node: NodeId, request: Req) -> Event {
    Event::Call(node, Ctx::Task(TASK), request)
}

fn create() -> Req {
    Req::UdpCreCep {
        cep: CepId(1),
        port: PORT,
        cbr: ObjId(0),
    }
}

fn send(alloc: Global, addr: u32, data: &[u8]) -> Result<Req, NoMemory> {
    Ok(Req::UdpSndDat {
        cep: CepId(1),
        dest: EndPt { addr, port: PORT },
        load: Bytes::of(alloc, data)?,
        tmo: Tmo::Fevr,
    })
}

fn receive() -> Req {
    Req::UdpRcvDat {
        cep: CepId(1),
        len: 16,
        tmo: Tmo::Fevr,
    }
}

/// Both nodes make an end point, the far one waits there, and the near one's datagram reaches it, twice: the second copy is
/// received by a call of its own.
pub fn exchange(alloc: Global) -> Result<Vec<Event>, NoMemory> {
    Ok(vec![in alloc;
        call(NEAR, create()),
        call(FAR, create()),
        call(FAR, receive()),
        call(NEAR, send(alloc, 0x0a000002, b"ping")?),
        Event::Deliver(PackNo(0)),
        Event::Return(FAR, TASK),
        Event::Deliver(PackNo(0)),
        call(FAR, receive()),
        call(NEAR, Req::ExtTsk),
        call(FAR, Req::ExtTsk),
        Event::Stop,
    ]?)
}
