ghost use Rattle.std.specs.Prelude.{◌≡◌, IfOk, false, option_copied, true};
ghost use Rattle.spec_lists.specs.Tables.{change, empty_table, filled, get};
ghost use Rattle.spec_kernel.specs.Ids.{greatest_id};
ghost use Rattle.spec_kernel.specs.Ids.{are_new_ids};
ghost use Rattle.spec_kernel.specs.DataQueues.{hands_over, has_item, has_room, item_taken, oldest_bytes, queue_declared, queue_id, sends_by_priority, with_forced_item, with_item};

use crate::queue::Queue;
use it_types::{DtqDecl, NoMemory, ObjId, Small, Table};
use std::alloc::Global;

/// The most data queues.
pub(crate) const MAX_QUEUES: usize = 16;

/// The declared data queues by their ids.
pub(crate) fn queue_table(
    alloc: Global,
    decls: &[DtqDecl],
) -> Result<Table<Queue, MAX_QUEUES>, NoMemory>
    requires { are_new_ids queue_id queue_declared (empty_table greatest_id) decls.now ≡ true }
    ensures { IfOk result (λ t. t ≡ filled queue_id queue_declared decls.now (empty_table greatest_id)) }
{
    let mut table = Table::new(alloc)?;
    for decl in decls {
        let queue = Queue::open(alloc, decl)?;
        let _ = table.put(decl.id, queue);
    }
    Ok(table)
}

pub(crate) fn queue_at(queues: &Table<Queue, MAX_QUEUES>, id: ObjId) -> Option<&Queue>
    ensures { option_copied result ≡ get queues.now id.0 }
{
    queues.get(id.0)
}

pub(crate) fn is_by_priority(queues: &Table<Queue, MAX_QUEUES>, id: ObjId) -> bool
    ensures { result ≡ sends_by_priority (get queues.now id.0) }
{
    match queue_at(queues, id) {
        Some(queue) => queue.is_by_priority(),
        None => false,
    }
}

pub(crate) fn has_room(queues: &Table<Queue, MAX_QUEUES>, id: ObjId) -> bool
    ensures { result ≡ has_room (get queues.now id.0) }
{
    match queue_at(queues, id) {
        Some(queue) => queue.has_room(),
        None => false,
    }
}

pub(crate) fn has_item(queues: &Table<Queue, MAX_QUEUES>, id: ObjId) -> bool
    ensures { result ≡ has_item (get queues.now id.0) }
{
    match queue_at(queues, id) {
        Some(queue) => queue.has_item(),
        None => false,
    }
}

pub(crate) fn hands_over(queues: &Table<Queue, MAX_QUEUES>, id: ObjId) -> bool
    ensures { result ≡ hands_over (get queues.now id.0) }
{
    match queue_at(queues, id) {
        Some(queue) => queue.hands_over(),
        None => true,
    }
}

pub(crate) fn oldest_bytes(queues: &Table<Queue, MAX_QUEUES>, id: ObjId) -> Small
    ensures { result ≡ oldest_bytes (get queues.now id.0) }
{
    match queue_at(queues, id) {
        Some(queue) => queue.oldest_bytes(),
        None => Small::of_word(0),
    }
}

/// Takes the oldest item of a queue out.
pub(crate) fn take_item(queues: &mut Table<Queue, MAX_QUEUES>, id: ObjId)
    ensures { queues.new ≡ change queues.old id.0 item_taken }
{
    if let Some(queue) = queues.get_mut(id.0) {
        queue.take();
    }
}

/// Appends an item to a queue that has room.
pub(crate) fn append_item(queues: &mut Table<Queue, MAX_QUEUES>, id: ObjId, item: u32)
    requires { has_room (get queues.old id.0) ≡ true }
    ensures { queues.new ≡ change queues.old id.0 (with_item item) }
{
    if let Some(queue) = queues.get_mut(id.0) {
        queue.append(item);
    }
}

/// Appends an item to a queue, whose oldest makes room where it is full.
pub(crate) fn force_item(queues: &mut Table<Queue, MAX_QUEUES>, id: ObjId, item: u32)
    requires { hands_over (get queues.old id.0) ≡ false }
    ensures { queues.new ≡ change queues.old id.0 (with_forced_item item) }
{
    if let Some(queue) = queues.get_mut(id.0) {
        queue.force(item);
    }
}
