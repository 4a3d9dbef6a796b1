//! What an event tells.

ghost use Rattle.std.specs.Prelude.{◌≡◌, [], ◌++◌, IfOk, OnOk};
ghost use Rattle.it_types.specs.Callers.{nobody};
ghost use Rattle.spec_node.specs.NodeStep.{gone_marks, begun_marks, run_marks};
ghost use Rattle.n_node.specs.Coming.{Adds};

use it_types::{Ans, Bytes, CallEnd, List, Mark, NoMemory, Out, TaskId};
use std::alloc::Global;

/// What an event has told so far: the ends of calls in their order, the marks of callback routines, and the packets that go out.
#[derive(Debug, Drop)]
pub struct Told {
    pub ends: List<CallEnd>,
    pub marks: List<Mark>,
    pub packs: List<Bytes>,
}

/// The tasks of the marks of an event, 0 for none: the one that ended, the one that began, and those that ran before the
/// event and after it.
#[derive(Clone, Copy, Debug)]
pub struct Turn {
    pub gone: TaskId,
    pub begun: TaskId,
    pub before: TaskId,
    pub after: TaskId,
}

impl Turn {
    /// No task ended or began.
    pub(crate) fn between(before: TaskId, after: TaskId) -> Turn
        ensures { result ≡ record { gone = nobody; begun = nobody; before = before; after = after } }
    {
        Turn {
            gone: TaskId(0),
            begun: TaskId(0),
            before,
            after,
        }
    }
}

impl Told {
    /// Nothing is told yet.
    pub(crate) fn nothing(alloc: Global) -> Told
        ensures ends { result.ends ≡ [] }
        ensures marks { result.marks ≡ [] }
        ensures packets { result.packs ≡ [] }
    {
        Told {
            ends: List::new(alloc),
            marks: List::new(alloc),
            packs: List::new(alloc),
        }
    }

    /// The ends, marks and packets are told behind those before.
    pub(crate) fn add(
        &mut self,
        ends: List<CallEnd>,
        marks: List<Mark>,
        packs: List<Bytes>,
    ) -> Result<(), NoMemory>
        ensures { OnOk result (Adds self.old ends marks packs self.new) }
    {
        append(&mut self.ends, ends)?;
        append(&mut self.marks, marks)?;
        append(&mut self.packs, packs)
    }

    /// All that an event with this answer tells.
    pub(crate) fn out(self, alloc: Global, ans: Ans, turn: Turn) -> Result<Out, NoMemory>
        ensures { IfOk result (λ o. o ≡ record {
          ans = ans;
          ends = self.ends;
          marks = gone_marks turn.gone ++ (begun_marks turn.begun ++ (self.marks ++ run_marks turn.before turn.after));
          packs = self.packs;
        }) }
    {
        let Told { ends, marks, packs } = self;
        let marks = marks_of(alloc, turn, marks)?;
        Ok(Out {
            ans,
            ends,
            marks,
            packs,
        })
    }
}

/// The items stand behind those before.
fn append<T: Drop>(list: &mut List<T>, more: List<T>) -> Result<(), NoMemory>
    ensures { OnOk result (list.new ≡ list.old ++ more) }
{
    for item in more.into_vec() {
        list.push(item)?;
    }
    Ok(())
}

/// The marks of an event: the task that ended, the one that began, the routines that are told, and the task that runs from now on.
fn marks_of(alloc: Global, turn: Turn, told: List<Mark>) -> Result<List<Mark>, NoMemory>
    ensures { IfOk result (λ list. list ≡ gone_marks turn.gone ++ (begun_marks turn.begun ++ (told ++ run_marks turn.before turn.after))) }
{
    let mut list = List::new(alloc);
    if turn.gone.0 != 0 {
        list.push(Mark::Gone { task: turn.gone })?;
    }
    if turn.begun.0 != 0 {
        list.push(Mark::Begun { task: turn.begun })?;
    }
    append(&mut list, told)?;
    if turn.after.0 != turn.before.0 {
        list.push(Mark::Run { task: turn.after })?;
    }
    Ok(list)
}
