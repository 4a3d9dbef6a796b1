ghost use Rattle.std.specs.Prelude.{◌≡◌, IfOk};
ghost use Rattle.it_types.specs.Configuration.{kernel_conf};
ghost use Rattle.spec_kernel.specs.Opening.{IsDeclarable};
ghost use Rattle.spec_node.specs.PlainNode.{opened_node};
ghost use Rattle.n_node.specs.Plain.{plain};

use crate::held::no_answers;
use e_pend::Pend;
use e_udp::Udps;
use it_types::{Handler, NoMemory, NodeConf};
use k_core::Kernel;
use spec_node::Held;
use std::alloc::Global;

/// The parts of a node: its kernel, its UDP end points, the calls of the network part that wait with the handlers that are due, the
/// answers that its tasks have not taken yet, the handler that has begun, and how many call numbers it has drawn.
#[derive(Debug, Drop)]
pub struct Parts {
    pub(crate) kernel: Kernel,
    pub(crate) udps: Udps,
    pub(crate) pend: Pend,
    pub(crate) held: Vec<Option<Held>>,
    pub(crate) begun: Option<Handler>,
    pub(crate) calls: u32,
}

impl Parts {
    /// The parts of a node with this configuration, before its first event.
    pub(crate) fn open(alloc: Global, conf: &NodeConf) -> Result<Parts, NoMemory>
        requires { IsDeclarable (kernel_conf conf.now) }
        ensures { IfOk result (λ p. plain p ≡ opened_node (kernel_conf conf.now) conf.now.addr conf.now.cbrs) }
    {
        let kernel_conf = conf.kernel_conf(alloc)?;
        Ok(Parts {
            kernel: Kernel::open(alloc, &kernel_conf)?,
            udps: Udps::open(alloc, conf.addr, conf.cbrs.as_slice())?,
            pend: Pend::open(alloc)?,
            held: no_answers(alloc)?,
            begun: None,
            calls: 0,
        })
    }
}
