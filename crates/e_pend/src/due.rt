ghost use Rattle.std.specs.Prelude.{◌≡◌, ◌↔◌, ◌++◌, [], ◌∷◌, IfOk, None, OnErr, OnOk, is_some};
ghost use Rattle.std.specs.List.{list_any};
ghost use Rattle.spec_pend.specs.Ends.{first_due, handlers_for, is_cyclic, is_cyclic_due, with_due, without_first_due};

use crate::Pend;
use it_types::{Bytes, Er, Handler, NoMemory, ObjId};
use spec_pend::{NetCall, Who};
use std::alloc::Global;
use std::collections::VecDeque;

/// The callback routine that is told of the call's end is due from then on, last; a task is told by its return.
pub(crate) fn tell(
    due: &mut VecDeque<Handler>,
    alloc: Global,
    call: NetCall,
    code: Er,
    bytes: &[u8],
) -> Result<(), NoMemory>
    ensures ok { OnOk result (due.new.items ≡ due.old.items ++ handlers_for call.who call.slot code bytes.now) }
    ensures no_memory { OnErr result (due.new.items ≡ due.old.items) }
{
    if let Who::Callback(_, cbr) = call.who {
        let bytes = Bytes::of(alloc, bytes)?;
        due.push_back(Handler::Cbr {
            cbr,
            udp: call.slot.udp,
            cep: call.slot.cep,
            func: call.slot.func,
            code,
            bytes,
        })?;
    }
    Ok(())
}

fn is_cyclic(handler: &Handler, cyc: ObjId) -> bool
    ensures { result ≡ is_cyclic cyc handler.now }
{
    match handler {
        Handler::Cyc(id) => id.0 == cyc.0,
        Handler::Cbr { .. } => false,
    }
}

fn is_any_cyclic(due: &VecDeque<Handler>, cyc: ObjId) -> bool
    ensures { result ≡ list_any (is_cyclic cyc) due.now.items }
{
    due.iter().any(|handler| is_cyclic(handler, cyc))
}

impl Pend {
    /// The handler is due, after all others. After want of memory nothing has changed.
    pub fn add_handler(&mut self, h: Handler) -> Result<(), NoMemory>
        ensures ok { OnOk result (self.new ≡ with_due self.old h) }
        ensures no_memory { OnErr result (self.new ≡ self.old) }
    {
        self.due.push_back(h)?;
        Ok(())
    }

    /// Whether a handler is due.
    pub fn has_due(&self) -> bool
        ensures { result ≡ is_some (first_due self.now.due) }
    {
        !self.due.is_empty()
    }

    /// Whether this cyclic handler (µITRON4.0 section 4.7.2) is due.
    pub fn is_cyclic_due(&self, c: ObjId) -> bool
        ensures { result ≡ is_cyclic_due c self.now }
    {
        is_any_cyclic(&self.due, c)
    }

    /// The handler that became due first, which is due no longer.
    pub fn next_handler(&mut self) -> Option<Handler>
        ensures first { result ≡ first_due self.old.due }
        ensures pend { self.new ≡ without_first_due self.old }
        ensures none { (result ≡ None) ↔ (self.old.due ≡ []) }
    {
        self.due.pop_front()
    }
}
