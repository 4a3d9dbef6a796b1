//! The event flags by their ids (µITRON4.0 section 4.4.2).

ghost use Rattle.std.specs.Prelude.{◌≡◌, IfOk, is_none};
ghost use Rattle.spec_lists.specs.Tables.{get, change, empty_table, filled};
ghost use Rattle.spec_kernel.specs.FlagBlocks.{pattern_of, takes_many, holds, with_bits, only_bits, flag_id, flag_declared};
ghost use Rattle.spec_kernel.specs.Ids.{greatest_id};
ghost use Rattle.spec_kernel.specs.PlainFlags.{AreDeclarable, is_met, is_by_priority, bytes_of};
ghost use Rattle.spec_kernel.specs.Waiting.{flags_after};

use crate::next::Objects;
use it_types::{FlgDecl, NoMemory, ObjId, Small, Table};
use spec_kernel::{FlagBlock, FlagWait, WaitReason};
use std::alloc::Global;

/// The greatest id of an event flag.
pub(crate) const MAX_FLAGS: usize = 16;

/// The declared event flags.
pub(crate) fn declared(
    alloc: Global,
    decls: &[FlgDecl],
) -> Result<Table<FlagBlock, MAX_FLAGS>, NoMemory>
    requires { AreDeclarable decls.now }
    ensures { IfOk result (λ table. table ≡ filled flag_id flag_declared decls.now (empty_table greatest_id)) }
{
    let mut table = Table::new(alloc)?;
    for decl in decls {
        let block = FlagBlock {
            by_priority: decl.pri,
            many: decl.many,
            clears: decl.clr,
            pattern: decl.init,
        };
        let _ = table.put(decl.id, block);
    }
    Ok(table)
}

pub(crate) fn is_missing(flags: &Table<FlagBlock, MAX_FLAGS>, id: ObjId) -> bool
    ensures { result ≡ is_none (get flags.now id.0) }
{
    flags.get(id.0).is_none()
}

/// Several tasks may wait at it.
pub(crate) fn takes_many(flags: &Table<FlagBlock, MAX_FLAGS>, id: ObjId) -> bool
    ensures { result ≡ takes_many (get flags.now id.0) }
{
    match flags.get(id.0) {
        Some(flag) => flag.many,
        None => true,
    }
}

/// The pattern of a flag; 0 where there is no such flag.
fn pattern_of(flags: &Table<FlagBlock, MAX_FLAGS>, id: ObjId) -> u32
    ensures { result ≡ pattern_of (get flags.now id.0) }
{
    match flags.get(id.0) {
        Some(flag) => flag.pattern,
        None => 0,
    }
}

fn is_ordered(flags: &Table<FlagBlock, MAX_FLAGS>, wait: FlagWait) -> bool
    ensures { result ≡ is_by_priority flags.now (WaitReason.Flag wait) }
{
    match flags.get(wait.flag.0) {
        Some(flag) => flag.by_priority,
        None => false,
    }
}

/// The pattern has all of the bits, or one of them.
fn holds(pattern: u32, wait: FlagWait) -> bool
    ensures { result ≡ holds pattern wait }
{
    let common = pattern & wait.bits;
    if wait.all {
        common == wait.bits
    } else {
        common != 0
    }
}

/// Adds bits to the pattern.
pub(crate) fn set_bits(flags: &mut Table<FlagBlock, MAX_FLAGS>, id: ObjId, bits: u32)
    ensures { flags.new ≡ change flags.old id.0 (with_bits bits) }
{
    if let Some(flag) = flags.get_mut(id.0) {
        flag.pattern |= bits;
    }
}

/// Leaves no other bits in the pattern than these.
pub(crate) fn keep_bits(flags: &mut Table<FlagBlock, MAX_FLAGS>, id: ObjId, bits: u32)
    ensures { flags.new ≡ change flags.old id.0 (only_bits bits) }
{
    if let Some(flag) = flags.get_mut(id.0) {
        flag.pattern &= bits;
    }
}

/// A task that is met takes the whole pattern, where the flag is declared so.
pub(crate) fn take(flags: &mut Table<FlagBlock, MAX_FLAGS>, reason: WaitReason)
    ensures { flags.new ≡ flags_after reason flags.old }
{
    if let WaitReason::Flag(wait) = reason {
        if let Some(flag) = flags.get_mut(wait.flag.0) {
            if flag.clears {
                flag.pattern = 0;
            }
        }
    }
}

impl Objects for Table<FlagBlock, MAX_FLAGS> {
    ghost meets = { is_met };

    ghost tells = { bytes_of };

    ghost orders = { is_by_priority };

    fn is_met(&self, reason: WaitReason) -> bool {
        match reason {
            WaitReason::Flag(wait) => holds(pattern_of(self, wait.flag), wait),
            _ => false,
        }
    }

    fn bytes_of(&self, reason: WaitReason) -> Small {
        match reason {
            WaitReason::Flag(wait) => Small::of_word(pattern_of(self, wait.flag)),
            _ => Small::new(),
        }
    }

    fn is_by_priority(&self, reason: WaitReason) -> bool {
        match reason {
            WaitReason::Flag(wait) => is_ordered(self, wait),
            _ => false,
        }
    }
}
