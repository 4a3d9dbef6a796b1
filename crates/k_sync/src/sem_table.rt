//! The semaphores by their ids (µITRON4.0 section 4.4.1).

ghost use Rattle.std.specs.Prelude.{◌≡◌, ◌<◌, IfOk, is_none};
ghost use Rattle.spec_lists.specs.Tables.{get, change, empty_table, filled};
ghost use Rattle.spec_kernel.specs.SemaphoreBlocks.{count_of, has_count, is_full, one_more, semaphore_id, semaphore_declared};
ghost use Rattle.spec_kernel.specs.Ids.{greatest_id};
ghost use Rattle.spec_kernel.specs.PlainSemaphores.{AreDeclarable, is_met, is_by_priority, bytes_of};
ghost use Rattle.spec_kernel.specs.Waiting.{semaphores_after};

use crate::next::Objects;
use it_types::{NoMemory, ObjId, SemDecl, Small, Table};
use spec_kernel::{SemaphoreBlock, WaitReason};
use std::alloc::Global;

/// The greatest id of a semaphore.
pub(crate) const MAX_SEMAPHORES: usize = 16;

/// The declared semaphores.
pub(crate) fn declared(
    alloc: Global,
    decls: &[SemDecl],
) -> Result<Table<SemaphoreBlock, MAX_SEMAPHORES>, NoMemory>
    requires { AreDeclarable decls.now }
    ensures { IfOk result (λ table. table ≡ filled semaphore_id semaphore_declared decls.now (empty_table greatest_id)) }
{
    let mut table = Table::new(alloc)?;
    for decl in decls {
        let block = SemaphoreBlock {
            by_priority: decl.pri,
            count: decl.init,
            max: decl.max,
        };
        let _ = table.put(decl.id, block);
    }
    Ok(table)
}

pub(crate) fn is_missing(semaphores: &Table<SemaphoreBlock, MAX_SEMAPHORES>, id: ObjId) -> bool
    ensures { result ≡ is_none (get semaphores.now id.0) }
{
    semaphores.get(id.0).is_none()
}

/// Its count is the maximum.
pub(crate) fn is_full(semaphores: &Table<SemaphoreBlock, MAX_SEMAPHORES>, id: ObjId) -> bool
    ensures { result ≡ is_full (get semaphores.now id.0) }
{
    match semaphores.get(id.0) {
        Some(semaphore) => semaphore.max <= semaphore.count,
        None => true,
    }
}

fn has_count(semaphores: &Table<SemaphoreBlock, MAX_SEMAPHORES>, id: ObjId) -> bool
    ensures { result ≡ has_count (get semaphores.now id.0) }
{
    match semaphores.get(id.0) {
        Some(semaphore) => semaphore.count > 0,
        None => false,
    }
}

fn is_ordered(semaphores: &Table<SemaphoreBlock, MAX_SEMAPHORES>, id: ObjId) -> bool
    ensures { result ≡ is_by_priority semaphores.now (WaitReason.Semaphore id) }
{
    match semaphores.get(id.0) {
        Some(semaphore) => semaphore.by_priority,
        None => false,
    }
}

/// One more count.
pub(crate) fn raise(semaphores: &mut Table<SemaphoreBlock, MAX_SEMAPHORES>, id: ObjId)
    requires { count_of (get semaphores.old id.0) < 65535 }
    ensures { semaphores.new ≡ change semaphores.old id.0 one_more }
{
    if let Some(semaphore) = semaphores.get_mut(id.0) {
        semaphore.count += 1;
    }
}

/// A task that is met takes a count.
pub(crate) fn take(semaphores: &mut Table<SemaphoreBlock, MAX_SEMAPHORES>, reason: WaitReason)
    ensures { semaphores.new ≡ semaphores_after reason semaphores.old }
{
    if let WaitReason::Semaphore(id) = reason {
        if let Some(semaphore) = semaphores.get_mut(id.0) {
            semaphore.count = semaphore.count.saturating_sub(1);
        }
    }
}

impl Objects for Table<SemaphoreBlock, MAX_SEMAPHORES> {
    ghost meets = { is_met };

    ghost tells = { λ _. bytes_of };

    ghost orders = { is_by_priority };

    fn is_met(&self, reason: WaitReason) -> bool {
        match reason {
            WaitReason::Semaphore(id) => has_count(self, id),
            _ => false,
        }
    }

    fn bytes_of(&self, _reason: WaitReason) -> Small {
        Small::new()
    }

    fn is_by_priority(&self, reason: WaitReason) -> bool {
        match reason {
            WaitReason::Semaphore(id) => is_ordered(self, id),
            _ => false,
        }
    }
}
