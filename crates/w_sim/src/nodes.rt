ghost use Rattle.std.specs.Prelude.{◌≡◌, false};
ghost use Rattle.spec_world.specs.History.{world_of};

use it_types::NodeId;
use n_node::Node;
use w_world::World;

/// Node 0.
pub fn first_node(world: &World) -> &Node
    requires { world.now.ended ≡ false }
    ensures { result.now.plain ≡ (world_of world.now).nodes.first }
{
    match world.node(NodeId(0)) {
        Some(node) => node,
        None => unreachable!(),
    }
}

/// Node 1.
pub fn second_node(world: &World) -> &Node
    requires { world.now.ended ≡ false }
    ensures { result.now.plain ≡ (world_of world.now).nodes.second }
{
    match world.node(NodeId(1)) {
        Some(node) => node,
        None => unreachable!(),
    }
}
