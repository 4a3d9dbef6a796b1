ghost use Rattle.std.specs.Prelude.{◌≡◌, ◌<◌, IfOk};
ghost use Rattle.spec_script.specs.Interpreter.{first_of_pattern, pattern_bytes};

use it_types::{NoMemory, NodeId, TaskId};
use std::alloc::Global;

/// Byte 0 of the pattern of a task; task 0 has that of the node's handlers.
pub(crate) fn first_of_pattern(node: NodeId, task: TaskId) -> u8
    ensures { result ≡ first_of_pattern node task }
{
    ((16 * u64::from(task.0) + 128 * u64::from(node.0)) % 256) as u8
}

/// So many bytes of the pattern, from this one on.
pub(crate) fn pattern_bytes(alloc: Global, len: u32, first: u8) -> Result<Vec<u8>, NoMemory>
    ensures { IfOk result (λ v. v.items ≡ pattern_bytes len first) }
{
    let mut bytes = Vec::with_capacity(alloc, len as usize)?;
    let mut byte = first;
    for _ in 0..len {
        bytes.push(byte)?;
        byte = byte.wrapping_add(1);
    }
    Ok(bytes)
}
