ghost use Rattle.std.specs.Prelude.{IfOk};
ghost use Rattle.it_types.specs.Configuration.{first_conf, kernel_conf, second_conf};
ghost use Rattle.spec_kernel.specs.Opening.{IsDeclarable};

use it_types::{Conf, List, NoMemory, NodeConf, TaskDecl};
use std::alloc::Global;

/// A node with this address, whose one object is the task 1, active from the start.
fn node_with_task(alloc: Global, addr: u32) -> Result<NodeConf, NoMemory>
    ensures { IfOk result (λ c. IsDeclarable (kernel_conf c)) }
{
    let task = TaskDecl {
        id: 1,
        pri: 1,
        act: true,
    };
    let mut node = NodeConf::new(alloc, addr);
    node.tasks = List::of(alloc, &[task])?;
    Ok(node)
}

/// The nodes 10.0.0.1 and 10.0.0.2.
pub fn two_nodes(alloc: Global) -> Result<Conf, NoMemory>
    ensures first { IfOk result (λ c. IsDeclarable (kernel_conf (first_conf c))) }
    ensures second { IfOk result (λ c. IsDeclarable (kernel_conf (second_conf c))) }
{
    let first = node_with_task(alloc, 0x0a000001)?;
    let second = node_with_task(alloc, 0x0a000002)?;
    Ok(Conf {
        nodes: [first, second],
    })
}
