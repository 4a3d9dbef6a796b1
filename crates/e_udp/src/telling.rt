ghost use Rattle.std.specs.Prelude.{◌≡◌, ◌<◌, [], IfOk, false, true};
ghost use Rattle.it_types.specs.declared.answer.Ans.{Ans as AnAns};
ghost use Rattle.spec_pend.specs.Kept.{IsCep};
ghost use Rattle.spec_pend.specs.Ends.{end_of, marks_for, told};
ghost use Rattle.spec_pend.specs.Outs.{shown_end};
ghost use Rattle.spec_pend.specs.PlainPend.{no_endings};
ghost use Rattle.spec_pend.specs.Slots.{at_slot, is_taken, named, numbered};
ghost use Rattle.e_udp.specs.Shows.{Shows, alone, begun_and_ended, ended_with};

use e_pend::Pend;
use it_types::{
    Ans, Bytes, CallEnd, CallNo, CepId, E_OK, Er, FnCode, Handler, List, Mark, NoMemory, ObjId, Out,
};
use spec_pend::{NetCall, Slot, Who};
use std::alloc::Global;

/// An answer, and nothing else.
pub(crate) fn alone(alloc: Global, ans: Ans) -> Out
    ensures { result ≡ alone ans }
{
    Out {
        ans,
        ends: List::new(alloc),
        marks: List::new(alloc),
        packs: List::new(alloc),
    }
}

/// The call is answered at once with this code alone.
pub(crate) fn code(alloc: Global, code: Er) -> Out
    ensures { result ≡ alone (AnAns.Now code []) }
{
    alone(alloc, Ans::Now(code, Bytes::new(alloc)))
}

// What is shown of the end of a call.
fn end_of(alloc: Global, call: NetCall, code: Er, bytes: &[u8]) -> Result<CallEnd, NoMemory>
    ensures { IfOk result (λ end. end ≡ shown_end (end_of call code bytes.now)) }
{
    Ok(CallEnd {
        call: call.call,
        code,
        bytes: Bytes::of(alloc, bytes)?,
    })
}

// The mark of the callback routine that is told of the end of a call, if one is.
fn marks_for(alloc: Global, call: NetCall, code: Er) -> Result<List<Mark>, NoMemory>
    ensures { IfOk result (λ marks. marks ≡ marks_for call.who call.slot code) }
{
    let mut marks = List::new(alloc);
    if let Who::Callback(_, cbr) = call.who {
        marks.push(Mark::Callback {
            cbr,
            udp: call.slot.udp,
            cep: call.slot.cep,
            func: call.slot.func,
            code,
        })?;
    }
    Ok(marks)
}

/// The call of this number ends, if it waits, with this code and these bytes; what is shown, with this answer.
pub(crate) fn ending(
    alloc: Global,
    pend: &mut Pend,
    no: CallNo,
    code: Er,
    bytes: &[u8],
    ans: Ans,
) -> Result<Out, NoMemory>
    ensures { IfOk result (λ out. Shows pend.new out ans (ended_with (no_endings pend.old) (numbered pend.old no) code bytes.now)) }
{
    let mut out = alone(alloc, ans);
    if let Some(call) = pend.call(no) {
        pend.end(alloc, no, code, bytes)?;
        out.ends.push(end_of(alloc, call, code, bytes)?)?;
        out.marks = marks_for(alloc, call, code)?;
    }
    Ok(out)
}

/// The call that waits there ends, if one does; what is shown, with this answer.
pub(crate) fn ending_at(
    alloc: Global,
    pend: &mut Pend,
    slot: Slot,
    code: Er,
    bytes: &[u8],
    ans: Ans,
) -> Result<Out, NoMemory>
    ensures { IfOk result (λ out. Shows pend.new out ans (ended_with (no_endings pend.old) (at_slot pend.old slot) code bytes.now)) }
{
    match pend.of(slot) {
        Some(no) => ending(alloc, pend, no, code, bytes, ans),
        None => Ok(alone(alloc, ans)),
    }
}

/// The first call that a cancel of this function names ends, if there is one; the answer is `E_OK`.
pub(crate) fn ending_named(
    alloc: Global,
    pend: &mut Pend,
    cep: CepId,
    func: FnCode,
    code: Er,
) -> Result<Out, NoMemory>
    ensures { IfOk result (λ out. Shows pend.new out (AnAns.Now E_OK []) (ended_with (no_endings pend.old) (named pend.old true cep func) code [])) }
{
    let ans = Ans::Now(E_OK, Bytes::new(alloc));
    match pend.cancel_first(true, cep, func) {
        Some(no) => ending(alloc, pend, no, code, &[], ans),
        None => Ok(alone(alloc, ans)),
    }
}

/// A call waits there.
pub(crate) fn is_waiting(pend: &Pend, slot: Slot) -> bool
    ensures { result ≡ is_taken pend.now slot }
{
    pend.of(slot).is_some()
}

/// A call is accepted where none waits, and ends at once with this code and these bytes.
pub(crate) fn begin_and_end(
    alloc: Global,
    pend: &mut Pend,
    who: Who,
    slot: Slot,
    no: CallNo,
    code: Er,
    bytes: &[u8],
) -> Result<Out, NoMemory>
    requires cep { IsCep slot.cep }
    requires number { pend.old.last < no.0 }
    requires free { is_taken pend.old slot ≡ false }
    ensures { IfOk result (λ out. Shows pend.new out (AnAns.Later no) (begun_and_ended pend.old who slot no code bytes.now)) }
{
    pend.accept(who, slot, no);
    ending_at(alloc, pend, slot, code, bytes, Ans::Later(no))
}

/// A callback routine is told of what happened at a part of an end point.
pub(crate) fn telling(
    alloc: Global,
    pend: &mut Pend,
    cbr: ObjId,
    slot: Slot,
    code: Er,
) -> Result<Out, NoMemory>
    ensures { IfOk result (λ out. Shows pend.new out AnAns.Quiet (told (no_endings pend.old) cbr slot code [])) }
{
    pend.add_handler(Handler::Cbr {
        cbr,
        udp: slot.udp,
        cep: slot.cep,
        func: slot.func,
        code,
        bytes: Bytes::new(alloc),
    })?;
    let mut out = alone(alloc, Ans::Quiet);
    out.marks.push(Mark::Callback {
        cbr,
        udp: slot.udp,
        cep: slot.cep,
        func: slot.func,
        code,
    })?;
    Ok(out)
}
