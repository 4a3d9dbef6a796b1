//! One reader for each kind of field: what stands at the front of the bytes as a value, `None` inside where it is out of its
//! range, and the bytes after it.

ghost use Rattle.std.specs.Prelude.{◌≡◌, Some, IfOk};
ghost use Rattle.it_types.specs.Cursor.{Gives};
ghost use Rattle.it_types.specs.Kinds.{task_of, object_of, reception_of, point_of, delay_of, ticks_of, end_point_of, mode_at, timeout_at, destination_at, load_at, function_in, function_at};

use crate::cursor::{after, is_word, split_word};
use crate::data::data_of;
use crate::numbers::{address_at, number_at, u16_of, u32_of};
use crate::{Bytes, CepId, EndPt, FnCode, NoMemory, ObjId, RepId, TaskId, Tmo};
use std::alloc::Global;

/// The greatest number of ticks of a time-out or a delay.
const MAX_TIME: u32 = 1000000;

pub(crate) fn task_of(number: Option<u64>) -> Option<TaskId>
    ensures { result ≡ task_of number }
{
    Some(TaskId(u32_of(number)?))
}

pub(crate) fn object_of(number: Option<u64>) -> Option<ObjId>
    ensures { result ≡ object_of number }
{
    Some(ObjId(u32_of(number)?))
}

pub(crate) fn reception_of(number: Option<u64>) -> Option<RepId>
    ensures { result ≡ reception_of number }
{
    Some(RepId(u32_of(number)?))
}

pub(crate) fn point_of(number: Option<u64>) -> Option<CepId>
    ensures { result ≡ point_of number }
{
    Some(CepId(u32_of(number)?))
}

pub(crate) fn delay_of(number: Option<u64>) -> Option<u32>
    ensures { result ≡ delay_of number }
{
    let ticks = number?;
    if ticks <= u64::from(MAX_TIME) {
        Some(ticks as u32)
    } else {
        None
    }
}

fn ticks_of(number: Option<u64>) -> Option<Tmo>
    ensures { result ≡ ticks_of number }
{
    let ticks = number?;
    if 1 <= ticks && ticks <= u64::from(MAX_TIME) {
        Some(Tmo::Ms(ticks as u32))
    } else {
        None
    }
}

fn end_point_of(addr: Option<u32>, port: Option<u16>) -> Option<EndPt>
    ensures { result ≡ end_point_of addr port }
{
    Some(EndPt {
        addr: addr?,
        port: port?,
    })
}

/// `and`, which is true, or `or`.
#[tactic(auto, unfolding(crate::specs::Cursor::and_then, crate::specs::Kinds::word_as, crate::specs::Kinds::mode_at))]
pub(crate) fn mode_at(bytes: &[u8]) -> Option<(bool, &[u8])>
    ensures { Gives (λ x. (Some x.0, x.1.now)) result (mode_at bytes.now) }
{
    if let Some(rest) = after(b"and", bytes) {
        Some((true, rest))
    } else {
        let rest = after(b"or", bytes)?;
        Some((false, rest))
    }
}

#[tactic(auto, unfolding(crate::specs::Cursor::and_then, crate::specs::Kinds::word_as, crate::specs::Kinds::number_as, crate::specs::Kinds::timeout_at))]
pub(crate) fn timeout_at(bytes: &[u8]) -> Option<(Option<Tmo>, &[u8])>
    ensures { Gives (λ x. (x.0, x.1.now)) result (timeout_at bytes.now) }
{
    if let Some(rest) = after(b"pol", bytes) {
        Some((Some(Tmo::Pol), rest))
    } else if let Some(rest) = after(b"nblk", bytes) {
        Some((Some(Tmo::Nblk), rest))
    } else if let Some(rest) = after(b"fevr", bytes) {
        Some((Some(Tmo::Fevr), rest))
    } else {
        let (ticks, rest) = number_at(bytes)?;
        Some((ticks_of(ticks), rest))
    }
}

#[tactic(auto, unfolding(crate::specs::Cursor::and_then, crate::specs::Kinds::destination_at))]
pub(crate) fn destination_at(bytes: &[u8]) -> Option<(Option<EndPt>, &[u8])>
    ensures { Gives (λ x. (x.0, x.1.now)) result (destination_at bytes.now) }
{
    let (addr, rest) = address_at(bytes)?;
    let (port, rest) = number_at(after(b":", rest)?)?;
    Some((end_point_of(addr, u16_of(port)), rest))
}

#[tactic(auto, unfolding(crate::specs::Cursor::and_then, crate::specs::Kinds::load_at))]
pub(crate) fn load_at(
    alloc: Global,
    limit: usize,
    bytes: &[u8],
) -> Result<Option<(Bytes, &[u8])>, NoMemory>
    ensures { IfOk result (λ found. Gives (λ x. (Some x.0, x.1.now)) found (load_at limit bytes.now)) }
{
    let Some(digits) = after(b"x", bytes) else {
        return Ok(None);
    };
    let (digits, rest) = split_word(digits);
    match data_of(alloc, limit, digits)? {
        Some(load) => Ok(Some((load, rest))),
        None => Ok(None),
    }
}

fn function_in(functions: &[FnCode], word: &[u8]) -> Option<FnCode>
    ensures { result ≡ function_in functions.now word.now }
{
    functions
        .iter()
        .copied()
        .find(|function| is_word(word, function.text()))
}

/// One of the functions, by its word.
#[tactic(auto, unfolding(crate::specs::Cursor::and_then, crate::specs::Kinds::function_at))]
pub(crate) fn function_at<'a>(functions: &[FnCode], bytes: &'a [u8]) -> Option<(FnCode, &'a [u8])>
    ensures { Gives (λ x. (Some x.0, x.1.now)) result (function_at functions.now bytes.now) }
{
    let (word, rest) = split_word(bytes);
    let function = function_in(functions, word)?;
    Some((function, rest))
}
