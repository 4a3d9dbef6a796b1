//! Cyclic handlers by their ids.

ghost use Rattle.std.specs.Prelude.{◌≡◌, ◌<◌, ◌^◌, None, length, map};
ghost use Rattle.spec_lists.specs.Tables.{change, get};
ghost use Rattle.spec_kernel.specs.PlainClock.{changed, due_from, is_due, next_time, started, stopped};

use arrayvec::ArrayVec;
use it_types::{ObjId, Table};
use spec_kernel::CyclicBlock;

/// The most cyclic handlers that there can be, and the greatest id of one.
pub(crate) const MAX_CYCLICS: usize = 8;

/// The handler runs, and is due a tick after its period is over.
pub(crate) fn start(cyclics: &mut Table<CyclicBlock, MAX_CYCLICS>, id: ObjId, now: u64)
    requires { now < 2 ^ 61 }
    ensures { cyclics.new ≡ change cyclics.old id.0 (changed (started now)) }
{
    if let Some(cyclic) = cyclics.get_mut(id.0) {
        cyclic.runs = true;
        cyclic.due = now + cyclic.period as u64 + 1;
    }
}

/// The handler stands.
pub(crate) fn stop(cyclics: &mut Table<CyclicBlock, MAX_CYCLICS>, id: ObjId)
    ensures { cyclics.new ≡ change cyclics.old id.0 (changed stopped) }
{
    if let Some(cyclic) = cyclics.get_mut(id.0) {
        cyclic.runs = false;
    }
}

/// Whether the handler comes due at a tick.
pub(crate) fn is_due(cyclics: &Table<CyclicBlock, MAX_CYCLICS>, id: u32, now: u64) -> bool
    ensures { result ≡ is_due now (get cyclics.now id) }
{
    match cyclics.get(id) {
        Some(cyclic) => cyclic.runs && cyclic.due == now,
        None => false,
    }
}

/// A handler that comes due at a tick is due again after its period.
pub(crate) fn move_on(cyclics: &mut Table<CyclicBlock, MAX_CYCLICS>, id: u32, now: u64)
    requires { now < 2 ^ 62 }
    ensures { cyclics.new ≡ change cyclics.old id (next_time now) }
{
    if let Some(cyclic) = cyclics.get_mut(id) {
        if cyclic.runs && cyclic.due == now {
            cyclic.due += cyclic.period as u64;
        }
    }
}

/// The handlers that come due at a tick, by rising id; each is due again after its period.
pub(crate) fn come_due(
    cyclics: &mut Table<CyclicBlock, MAX_CYCLICS>,
    now: u64,
) -> ArrayVec<ObjId, MAX_CYCLICS>
    requires counts { now < 2 ^ 62 }
    requires places { length cyclics.old ≡ 9 }
    requires nobody { get cyclics.old 0 ≡ None }
    ensures cyclics { cyclics.new ≡ map (next_time now) cyclics.old }
    ensures due { result.items ≡ due_from now 0 cyclics.old }
{
    let mut due = ArrayVec::new();
    for id in 1..=8 {
        if is_due(cyclics, id, now) {
            due.push(ObjId(id));
        }
        move_on(cyclics, id, now);
    }
    due
}
