//! The handlers of a node: those that come due, and the one that begins and ends.

ghost use Rattle.std.specs.Prelude.{◌≡◌, IfOk, OnOk};
ghost use Rattle.spec_node.specs.declared.event.NodeEv.TheVariants.{Begin as Begins, Finish as Finished};
ghost use Rattle.spec_node.specs.Handlers.{entered_marks, with_cyclic, with_cyclics};
ghost use Rattle.spec_node.specs.NodeStep.{node_step, told_only};
ghost use Rattle.it_types.specs.declared.answer.Ans.TheVariants.{Quiet};
ghost use Rattle.n_node.specs.Plain.{plain};

use crate::Parts;
use e_pend::Pend;
use it_types::{Ans, Bytes, Handler, List, Mark, NoMemory, ObjId, Out};
use std::alloc::Global;

/// A cyclic handler comes due (µITRON4.0 section 4.7.2), after all others; one that is due already isn't due twice.
fn make_one_due(pend: &mut Pend, cyclic: ObjId) -> Result<(), NoMemory>
    ensures { OnOk result (pend.new ≡ record pend.old { due = with_cyclic pend.old.due cyclic }) }
{
    if pend.is_cyclic_due(cyclic) {
        return Ok(());
    }
    pend.add_handler(Handler::Cyc(cyclic))
}

/// Cyclic handlers come due, one after another.
pub(crate) fn make_due(pend: &mut Pend, cyclics: &[ObjId]) -> Result<(), NoMemory>
    ensures { OnOk result (pend.new ≡ record pend.old { due = with_cyclics pend.old.due cyclics.now }) }
{
    for cyclic in cyclics {
        make_one_due(pend, *cyclic)?;
    }
    Ok(())
}

/// The same handler.
fn copy(alloc: Global, handler: &Handler) -> Result<Handler, NoMemory>
    ensures { IfOk result (λ h. h ≡ handler.now) }
{
    match handler {
        Handler::Cyc(cyclic) => Ok(Handler::Cyc(*cyclic)),
        Handler::Cbr {
            cbr,
            udp,
            cep,
            func,
            code,
            bytes,
        } => Ok(Handler::Cbr {
            cbr: *cbr,
            udp: *udp,
            cep: *cep,
            func: *func,
            code: *code,
            bytes: Bytes::of(alloc, bytes.as_slice())?,
        }),
    }
}

/// The mark of a handler that begins, with what it is told.
fn entered(alloc: Global, handler: &Option<Handler>) -> Result<List<Mark>, NoMemory>
    ensures { IfOk result (λ list. list ≡ entered_marks handler.now) }
{
    let mut marks = List::new(alloc);
    if let Some(handler) = handler {
        marks.push(Mark::Entered {
            what: copy(alloc, handler)?,
        })?;
    }
    Ok(marks)
}

/// An answer of nothing, with these marks.
fn marked(alloc: Global, marks: List<Mark>) -> Out
    ensures { result ≡ told_only Quiet marks }
{
    Out {
        ans: Ans::Quiet,
        ends: List::new(alloc),
        marks,
        packs: List::new(alloc),
    }
}

impl Parts {
    /// The first due handler begins.
    pub(crate) fn begin(&mut self, alloc: Global) -> Result<Out, NoMemory>
        ensures { IfOk result (λ o. node_step (plain self.old) Begins ≡ (plain self.new, o)) }
    {
        self.begun = self.pend.next_handler();
        let marks = entered(alloc, &self.begun)?;
        Ok(marked(alloc, marks))
    }

    /// The handler that has begun ends.
    pub(crate) fn end_handler(&mut self, alloc: Global) -> Out
        ensures { node_step (plain self.old) Finished ≡ (plain self.new, result) }
    {
        self.begun = None;
        marked(alloc, List::new(alloc))
    }
}
