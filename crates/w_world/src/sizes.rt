//! How many bytes of data an entry holds; sums stop at the greatest number of 64 bits.

ghost use Rattle.std.specs.Prelude.{◌≡◌, ◌+◌, sum_by};
ghost use Rattle.spec_world.specs.Sizes.{answer_size, end_size, entry_size, event_size, handler_size, mark_size, pack_size, request_size};
ghost use Rattle.w_world.specs.Capped.{capped};

use it_types::{Ans, Bytes, CallEnd, Entry, Event, Handler, Mark, Req};

fn request_size(request: &Req) -> u64
    ensures { result ≡ request_size request.now }
{
    request.load().len() as u64
}

fn event_size(event: &Event) -> u64
    ensures { result ≡ event_size event.now }
{
    match event {
        Event::Call(_, _, request) => request_size(request),
        Event::Return(..)
        | Event::Begin(_)
        | Event::Finish(_)
        | Event::Tick(_)
        | Event::Deliver(_)
        | Event::Stop => 0,
    }
}

fn answer_size(answer: &Ans) -> u64
    ensures { result ≡ answer_size answer.now }
{
    match answer {
        Ans::Now(_, bytes) => bytes.as_slice().len() as u64,
        Ans::Pends(_) | Ans::Later(_) | Ans::Quiet => 0,
    }
}

fn handler_size(handler: &Handler) -> u64
    ensures { result ≡ handler_size handler.now }
{
    match handler {
        Handler::Cyc(_) => 0,
        Handler::Cbr { bytes, .. } => bytes.as_slice().len() as u64,
    }
}

fn mark_size(mark: &Mark) -> u64
    ensures { result ≡ mark_size mark.now }
{
    match mark {
        Mark::Entered { what } => handler_size(what),
        Mark::Gone { .. }
        | Mark::Begun { .. }
        | Mark::Started { .. }
        | Mark::Opened { .. }
        | Mark::Broken { .. }
        | Mark::Over { .. }
        | Mark::Lent { .. }
        | Mark::Back { .. }
        | Mark::Callback { .. }
        | Mark::Run { .. } => 0,
    }
}

fn ends_size(ends: &[CallEnd]) -> u64
    ensures { result ≡ capped (sum_by end_size ends.now) }
{
    let mut total: u64 = 0;
    for end in ends {
        total = total.saturating_add(end.bytes.as_slice().len() as u64);
    }
    total
}

fn marks_size(marks: &[Mark]) -> u64
    ensures { result ≡ capped (sum_by mark_size marks.now) }
{
    let mut total: u64 = 0;
    for mark in marks {
        total = total.saturating_add(mark_size(mark));
    }
    total
}

fn packs_size(packs: &[Bytes]) -> u64
    ensures { result ≡ capped (sum_by pack_size packs.now) }
{
    let mut total: u64 = 0;
    for pack in packs {
        total = total.saturating_add(pack.as_slice().len() as u64);
    }
    total
}

/// The bytes in the request, the answer, the ends, the entered handlers and the packets of an entry.
pub fn entry_size(entry: &Entry) -> u64
    ensures { result ≡ capped (entry_size entry.now) }
{
    event_size(&entry.ev)
        .saturating_add(answer_size(&entry.ans))
        .saturating_add(ends_size(entry.ends.as_slice()))
        .saturating_add(marks_size(entry.marks.as_slice()))
        .saturating_add(packs_size(entry.packs.as_slice()))
}
