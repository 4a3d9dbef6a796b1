ghost use Rattle.std.specs.Prelude.{◌≡◌, true, OnOk};
ghost use Rattle.it_types.specs.Configuration.{first_conf, kernel_conf, second_conf};
ghost use Rattle.spec_kernel.specs.Opening.{IsDeclarable};
ghost use Rattle.spec_world.specs.Sizes.{is_full};

use it_types::{Conf, Event, NodeConf, NodeId};
use std::alloc::Global;
use w_world::{WErr, World};

/// The nodes 10.0.0.1 and 10.0.0.2, without objects.
pub fn bare_nodes(alloc: Global) -> Conf
    ensures first { IsDeclarable (kernel_conf (first_conf result)) }
    ensures second { IsDeclarable (kernel_conf (second_conf result)) }
{
    Conf {
        nodes: [
            NodeConf::new(alloc, 0x0a000001),
            NodeConf::new(alloc, 0x0a000002),
        ],
    }
}

/// Ticks of node 0 until the history is full.
pub fn fill(alloc: Global, world: &mut World) -> Result<(), WErr>
    ensures { OnOk result (is_full world.new.log ≡ true) }
{
    while !world.full() {
        world.step(alloc, Event::Tick(NodeId(0)))?;
    }
    Ok(())
}
