ghost use Rattle.std.specs.Prelude.{◌≡◌, IfOk, OnOk, option_copied};
ghost use Rattle.spec_sim.specs.Bodies.{handler_event, handler_answered, tasks_answered};
ghost use Rattle.spec_sim.specs.Schedule.{is_at, node_after, node_asked, node_opened, task_event};

use crate::interpreting::{answer, answer_task, handler_wants, next_request};
use crate::starting::{begin_anew, handler_started, tasks_started};
use it_types::{Ctx, Entry, Event, Handler, NoMemory, NodeId, TaskId};
use n_node::Node;
use s_exec::Exec;
use spec_script::{Decl, Want};
use std::alloc::Global;
use std::marker::Model;

/// Where the tasks and the handler of a node have come to in their bodies.
#[derive(Drop)]
pub struct Interpreters<'a> {
    /// By task id; none for a task that isn't declared.
    tasks: Vec<Option<Exec<'a>>>,
    /// That of the handler that has begun last.
    handler: Option<Exec<'a>>,
}

impl<'a> Model for Interpreters<'a> {
    ghost Value = { Rattle.spec_sim.specs.Bodies.Interpreters };

    ghost view = { λ i. record { tasks = i.tasks.items; handler = i.handler } };
}

/// Whether the event happens at this node.
fn is_at(id: NodeId, event: &Event) -> bool
    ensures { result ≡ is_at id event.now }
{
    match event {
        Event::Call(at, _, _)
        | Event::Return(at, _)
        | Event::Begin(at)
        | Event::Finish(at)
        | Event::Tick(at) => at.0 == id.0,
        Event::Deliver(_) | Event::Stop => false,
    }
}

impl<'a> Interpreters<'a> {
    /// Each task is before the first line of its body, and no handler has begun.
    pub fn open(alloc: Global, id: NodeId, decls: &'a [Decl]) -> Result<Interpreters<'a>, NoMemory>
        ensures { IfOk result (λ i. i ≡ node_opened id decls.now) }
    {
        Ok(Interpreters {
            tasks: tasks_started(alloc, id, decls)?,
            handler: None,
        })
    }

    /// What the handler that has begun does: it makes its next call, or finishes.
    pub fn handler_event(&mut self, alloc: Global, id: NodeId) -> Result<Event, NoMemory>
        ensures event { IfOk result (λ event. event ≡ handler_event id self.old.handler) }
        ensures place { IfOk result (λ event. self.new ≡ node_asked id event self.old) }
    {
        match handler_wants(&mut self.handler, alloc)? {
            Want::Call(req) => Ok(Event::Call(id, Ctx::Handler, req)),
            Want::Finish => Ok(Event::Finish(id)),
        }
    }

    /// What a task that runs on the node does: it returns where it holds an answer, else it makes its next call.
    pub fn task_event(
        &mut self,
        alloc: Global,
        id: NodeId,
        node: &Node,
        task: TaskId,
    ) -> Result<Event, NoMemory>
        ensures event { IfOk result (λ event. event ≡ task_event id node.now.plain self.old.tasks task) }
        ensures place { IfOk result (λ event. self.new ≡ node_asked id event self.old) }
    {
        if node.holds_answer(task) {
            return Ok(Event::Return(id, task));
        }
        let request = next_request(&mut self.tasks, alloc, task)?;
        Ok(Event::Call(id, Ctx::Task(task), request))
    }

    /// Follows an entry, after which this handler has begun: the event's task or handler is told the answer, and each task and
    /// handler that began is before its first line.
    pub fn follow(
        &mut self,
        alloc: Global,
        id: NodeId,
        decls: &'a [Decl],
        entry: &Entry,
        begun: Option<&Handler>,
    ) -> Result<(), NoMemory>
        ensures { OnOk result (self.new ≡ node_after id decls.now entry.now (option_copied begun.entry) self.old) }
    {
        if !is_at(id, &entry.ev) {
            return Ok(());
        }
        match &entry.ev {
            Event::Call(_, Ctx::Task(task), _) | Event::Return(_, task) => {
                answer_task(&mut self.tasks, alloc, *task, &entry.ans)?
            }
            Event::Call(_, Ctx::Handler, _) => answer(&mut self.handler, alloc, &entry.ans)?,
            Event::Begin(_) => self.handler = handler_started(alloc, id, decls, begun)?,
            Event::Finish(_) | Event::Tick(_) | Event::Deliver(_) | Event::Stop => {}
        }
        begin_anew(&mut self.tasks, alloc, id, decls, entry.marks.as_slice())
    }
}
