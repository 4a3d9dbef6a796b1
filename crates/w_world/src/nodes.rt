ghost use Rattle.std.specs.Prelude.{◌≡◌, true, IfOk, nat_le};
ghost use Rattle.it_types.specs.declared.request.Req.{Req as ARequest};
ghost use Rattle.it_types.specs.Configuration.{first_conf, kernel_conf, second_conf};
ghost use Rattle.spec_kernel.specs.Opening.{IsDeclarable};
ghost use Rattle.spec_node.specs.declared.event.NodeEv.TheVariants.{Call as Called};
ghost use Rattle.spec_world.specs.PlainWorld.{nodes_step, opened_world};
ghost use Rattle.spec_world.specs.Admitted.{is_admitted_at};
ghost use Rattle.w_world.specs.Room.{HaveRoom};

use it_types::{Conf, Ctx, NoMemory, NodeId, Out, Req};
use n_node::{Node, NodeEv};
use std::alloc::Global;
use std::marker::Model;

/// The two nodes.
#[derive(Debug, Drop)]
pub struct Nodes {
    first: Node,
    second: Node,
}

impl Model for Nodes {
    ghost Value = { Rattle.spec_world.specs.PlainWorld.Nodes };

    ghost view = { λ n. record { first = n.first.plain; second = n.second.plain } };
}

impl Nodes {
    /// The nodes with this configuration, before their first events.
    pub fn open(alloc: Global, conf: &Conf) -> Result<Nodes, NoMemory>
        requires first { IsDeclarable (kernel_conf (first_conf conf.now)) }
        requires second { IsDeclarable (kernel_conf (second_conf conf.now)) }
        ensures { IfOk result (λ n. n ≡ (opened_world conf.now).nodes) }
    {
        let first = Node::open(alloc, &conf.nodes[0])?;
        let second = Node::open(alloc, &conf.nodes[1])?;
        Ok(Nodes { first, second })
    }

    pub fn first(&self) -> &Node
        ensures { result.now.plain ≡ self.now.first }
    {
        &self.first
    }

    pub fn second(&self) -> &Node
        ensures { result.now.plain ≡ self.now.second }
    {
        &self.second
    }

    /// Whether the event is admitted at the node.
    pub fn admits(&self, id: NodeId, ev: &NodeEv) -> bool
        ensures { result ≡ is_admitted_at self.now id ev.now }
    {
        match id.0 {
            0 => self.first.admits(ev),
            1 => self.second.admits(ev),
            _ => false,
        }
    }

    /// Whether a call is admitted at the node, whatever it asks for.
    pub fn admits_call(&self, id: NodeId, ctx: Ctx) -> bool
        ensures { (request : ARequest) → result ≡ is_admitted_at self.now id (Called ctx request) }
    {
        self.admits(id, &NodeEv::Call(ctx, Req::ExtTsk))
    }

    /// The event at the node, which admits it. Without memory the nodes are not used again.
    pub fn step(&mut self, alloc: Global, id: NodeId, ev: NodeEv) -> Result<Out, NoMemory>
        requires admitted { is_admitted_at self.old id ev ≡ true }
        requires room { HaveRoom self.old }
        ensures { IfOk result (λ o. nodes_step self.old id ev ≡ (self.new, o)) }
    {
        let stepped = if id.0 == 0 {
            self.first.step(alloc, ev)
        } else {
            self.second.step(alloc, ev)
        };
        match stepped {
            Ok(out) => Ok(out),
            Err(_) => Err(NoMemory),
        }
    }
}
