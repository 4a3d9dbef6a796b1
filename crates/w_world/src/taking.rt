//! What an event comes to at its node.

ghost use Rattle.std.specs.Prelude.{◌≡◌, true, IfOk};
ghost use Rattle.spec_world.specs.Admitted.{is_admitted, is_admitted_at};
ghost use Rattle.spec_world.specs.PlainWorld.{nodes_step, peer_of};
ghost use Rattle.w_world.specs.Room.{HaveRoom};
ghost use Rattle.w_world.specs.Sending.{world_in};
ghost use Rattle.w_world.specs.Takes.{Takes, nothing};

use crate::nodes::Nodes;
use crate::sent::{Sent, bytes_in};
use it_types::{Ans, Bytes, Entry, Event, List, NoMemory, NodeId, Out, PackNo};
use n_node::NodeEv;
use std::alloc::Global;

/// What an event gives, and the node at which it happened, by which its packets go out.
#[derive(Debug, Drop)]
pub struct Taken {
    pub by: NodeId,
    pub out: Out,
}

/// Nothing is answered, and nothing brought about.
fn nothing(alloc: Global) -> Out
    ensures { result ≡ nothing }
{
    Out {
        ans: Ans::Quiet,
        ends: List::new(alloc),
        marks: List::new(alloc),
        packs: List::new(alloc),
    }
}

fn peer_of(id: NodeId) -> NodeId
    ensures { result ≡ peer_of id }
{
    if id.0 == 0 { NodeId(1) } else { NodeId(0) }
}

/// The event at the node, which admits it. Without memory the nodes are not used again.
fn at_node(alloc: Global, nodes: &mut Nodes, id: NodeId, event: NodeEv) -> Result<Taken, NoMemory>
    requires admitted { is_admitted_at nodes.old id event ≡ true }
    requires room { HaveRoom nodes.old }
    ensures { IfOk result (λ t. (t.by ≡ id) × (nodes_step nodes.old id event ≡ (nodes.new, t.out))) }
{
    let out = nodes.step(alloc, id, event)?;
    Ok(Taken { by: id, out })
}

/// The packet reaches the node that did not send it. Without memory the nodes are not used again.
fn deliver(
    alloc: Global,
    nodes: &mut Nodes,
    log: &[Entry],
    sent: &[Sent],
    number: PackNo,
) -> Result<Taken, NoMemory>
    requires room { HaveRoom nodes.old }
    ensures { IfOk result (λ t. Takes (world_in nodes.old log.now sent.now) (Event.Deliver number) nodes.new t.by t.out) }
{
    match sent.get(number.0 as usize) {
        Some(packet) => {
            let bytes = Bytes::of(alloc, bytes_in(log, *packet))?;
            at_node(alloc, nodes, peer_of(packet.by), NodeEv::Arrive(bytes))
        }
        None => Ok(Taken {
            by: NodeId(0),
            out: nothing(alloc),
        }),
    }
}

/// The event happens at its node, which admits it. Without memory the nodes are not used again.
pub fn take(
    alloc: Global,
    nodes: &mut Nodes,
    log: &[Entry],
    sent: &[Sent],
    event: &Event,
) -> Result<Taken, NoMemory>
    requires admitted { is_admitted (world_in nodes.old log.now sent.now) event.now ≡ true }
    requires room { HaveRoom nodes.old }
    ensures { IfOk result (λ t. Takes (world_in nodes.old log.now sent.now) event.now nodes.new t.by t.out) }
{
    match event {
        Event::Call(id, ctx, request) => {
            let request = request.copy(alloc)?;
            at_node(alloc, nodes, *id, NodeEv::Call(*ctx, request))
        }
        Event::Return(id, task) => at_node(alloc, nodes, *id, NodeEv::Return(*task)),
        Event::Begin(id) => at_node(alloc, nodes, *id, NodeEv::Begin),
        Event::Finish(id) => at_node(alloc, nodes, *id, NodeEv::Finish),
        Event::Tick(id) => at_node(alloc, nodes, *id, NodeEv::Tick),
        Event::Deliver(number) => deliver(alloc, nodes, log, sent, *number),
        Event::Stop => Ok(Taken {
            by: NodeId(0),
            out: nothing(alloc),
        }),
    }
}
