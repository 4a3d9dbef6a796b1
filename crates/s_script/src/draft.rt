ghost use Rattle.std.specs.Prelude.{◌≡◌, true, [], None, OnOk};
ghost use Rattle.spec_script.specs.Lines.{no_node};
ghost use Rattle.spec_script.specs.Ranges.{is_node_in_range, is_in_range, may_nest, depth_after};
ghost use Rattle.s_script.specs.Drafts.{start, is_last, in_place, has_room, is_declared, nests, cause, node_of, with_object, opened, with_body_line, moved};

use crate::Why;
use crate::declaration::{
    cyclic_of, declares_cyclic, declares_flag, declares_queue, declares_routine,
    declares_semaphore, declares_task, flag_of, queue_of, routine_of, semaphore_of, task_of,
    to_u32,
};
use crate::owner::Owner;
use crate::ranges::is_in_range;
use it_types::{List, NoMemory, TaskDecl};
use spec_script::{Body, Decl, Line, NodeDecl, NodeLine, ScriptLine};
use std::alloc::Global;
use std::mem;

/// The greatest number of lines of a body.
const BODY_LIMIT: usize = 1000;

/// The greatest number of loops that are open at once.
const LOOP_LIMIT: usize = 4;

/// How far a script has come: what the next line may be.
#[derive(Clone, Copy, Debug, PartialEq, Eq)]
pub enum Stage {
    /// No line has come.
    Start,
    /// `itron` has come.
    Headed,
    /// `link` has come.
    Linked,
    /// `ticks` has come.
    Timed,
    /// A node has begun, and no body is open.
    Declares,
    /// A body is open.
    InBody,
}

/// The script so far; a field that the stage does not use has no meaning.
#[derive(Debug, Drop)]
pub struct Draft {
    pub stage: Stage,
    /// The numbers of the link's line.
    pub link: [u64; 4],
    pub ticks: u32,
    /// Node 0, once node 1 has begun.
    pub first: Option<NodeDecl>,
    /// The node that has begun last, to which declarations go.
    pub node: NodeDecl,
    /// Whose body is open, and that body.
    pub owner: Owner,
    pub body: List<Line>,
    /// How many loops of the body are open.
    pub depth: usize,
}

fn no_node(alloc: Global) -> NodeDecl
    ensures { result ≡ no_node }
{
    NodeDecl {
        addr: 0,
        isn0: 0,
        top0: 0,
        decls: List::new(alloc),
    }
}

fn node_of(alloc: Global, line: NodeLine) -> NodeDecl
    requires { is_node_in_range line ≡ true }
    ensures { result ≡ node_of line }
{
    NodeDecl {
        addr: line.addr.unwrap_or(0),
        isn0: to_u32(line.isn0),
        top0: line.top0.unwrap_or(0),
        decls: List::new(alloc),
    }
}

/// Whether the line may come at the stage; `last` says that node 1 has begun, and `owner` whose body is open, if one is.
fn in_place(stage: Stage, last: bool, owner: Owner, line: &ScriptLine) -> bool
    ensures { result ≡ in_place stage last owner line.now }
{
    match (stage, line) {
        (Stage::Start, ScriptLine::Itron) => true,
        (Stage::Headed, ScriptLine::Link { .. }) => true,
        (Stage::Linked, ScriptLine::Ticks { .. }) => true,
        (Stage::Timed, ScriptLine::FirstNode(_)) => true,
        (Stage::Declares, ScriptLine::Sem { .. }) => true,
        (Stage::Declares, ScriptLine::Flg { .. }) => true,
        (Stage::Declares, ScriptLine::Dtq { .. }) => true,
        (Stage::Declares, ScriptLine::Task { .. }) => true,
        (Stage::Declares, ScriptLine::Cyc { .. }) => true,
        (Stage::Declares, ScriptLine::Cbr { .. }) => true,
        (Stage::Declares, ScriptLine::SecondNode(_)) => !last,
        (Stage::InBody, ScriptLine::Body { line, .. }) => owner.may_have(line),
        (Stage::InBody, ScriptLine::End) => true,
        _ => false,
    }
}

/// Whether the line may stand where so many loops are open.
fn may_nest(depth: usize, line: &Line) -> bool
    ensures { result ≡ may_nest depth line.now }
{
    match line {
        Line::Loop(_) => depth < LOOP_LIMIT,
        Line::Pool | Line::UntilEnd | Line::UntilFail | Line::UntilEmpty => depth > 0,
        Line::Call { .. } | Line::Fill(_) => true,
    }
}

/// How many loops are open after the line.
fn depth_after(depth: usize, line: &Line) -> usize
    requires { may_nest depth line.now ≡ true }
    ensures { result ≡ depth_after depth line.now }
{
    match line {
        Line::Loop(_) => depth + 1,
        Line::Pool => depth - 1,
        Line::Call { .. } | Line::Fill(_) | Line::UntilEnd | Line::UntilFail | Line::UntilEmpty =>
            depth,
    }
}

impl Draft {
    /// Before the first line.
    pub fn new(alloc: Global) -> Self
        ensures { result ≡ start }
    {
        Draft {
            stage: Stage::Start,
            link: [0; 4],
            ticks: 0,
            first: None,
            node: no_node(alloc),
            owner: Owner::Task(TaskDecl {
                id: 0,
                pri: 0,
                act: true,
            }),
            body: List::new(alloc),
            depth: 0,
        }
    }

    /// Whether node 1 has begun.
    fn is_last(&self) -> bool
        ensures { result ≡ is_last self.now }
    {
        self.first.is_some()
    }

    fn has_room(&self, line: &ScriptLine) -> bool
        ensures { result ≡ has_room self.now line.now }
    {
        match line {
            ScriptLine::SecondNode(node) => node.addr.unwrap_or(0) != self.node.addr,
            ScriptLine::Body { .. } => self.body.len() < BODY_LIMIT,
            ScriptLine::Itron
            | ScriptLine::Link { .. }
            | ScriptLine::Ticks { .. }
            | ScriptLine::FirstNode(_)
            | ScriptLine::Sem { .. }
            | ScriptLine::Flg { .. }
            | ScriptLine::Dtq { .. }
            | ScriptLine::Task { .. }
            | ScriptLine::Cyc { .. }
            | ScriptLine::Cbr { .. }
            | ScriptLine::End => true,
        }
    }

    fn is_declared(&self, line: &ScriptLine) -> bool
        ensures { result ≡ is_declared self.now line.now }
    {
        let decls = self.node.decls.as_slice();
        match line {
            ScriptLine::Sem { id, .. } => declares_semaphore(decls, id.unwrap_or(0)),
            ScriptLine::Flg { id, .. } => declares_flag(decls, id.unwrap_or(0)),
            ScriptLine::Dtq { id, .. } => declares_queue(decls, id.unwrap_or(0)),
            ScriptLine::Task { id, .. } => declares_task(decls, id.unwrap_or(0)),
            ScriptLine::Cyc { id, .. } => declares_cyclic(decls, id.unwrap_or(0)),
            ScriptLine::Cbr { id } => declares_routine(decls, id.unwrap_or(0)),
            ScriptLine::Itron
            | ScriptLine::Link { .. }
            | ScriptLine::Ticks { .. }
            | ScriptLine::FirstNode(_)
            | ScriptLine::SecondNode(_)
            | ScriptLine::Body { .. }
            | ScriptLine::End => false,
        }
    }

    fn nests(&self, line: &ScriptLine) -> bool
        ensures { result ≡ nests self.now line.now }
    {
        match line {
            ScriptLine::Body { line, .. } => may_nest(self.depth, line),
            ScriptLine::End => self.depth == 0,
            ScriptLine::Itron
            | ScriptLine::Link { .. }
            | ScriptLine::Ticks { .. }
            | ScriptLine::FirstNode(_)
            | ScriptLine::SecondNode(_)
            | ScriptLine::Sem { .. }
            | ScriptLine::Flg { .. }
            | ScriptLine::Dtq { .. }
            | ScriptLine::Task { .. }
            | ScriptLine::Cyc { .. }
            | ScriptLine::Cbr { .. } => true,
        }
    }

    /// What is wrong with the line, if anything.
    pub fn cause(&self, line: &ScriptLine) -> Option<Why>
        ensures { result ≡ cause self.now line.now }
    {
        if !in_place(self.stage, self.is_last(), self.owner, line) {
            Some(Why::Form)
        } else if !(is_in_range(line) && self.has_room(line)) {
            Some(Why::Range)
        } else if self.is_declared(line) {
            Some(Why::Twice)
        } else if !self.nests(line) {
            Some(Why::Nest)
        } else {
            None
        }
    }

    fn set_link(
        &mut self,
        key: Option<u64>,
        lose: Option<u64>,
        twice: Option<u64>,
        delay: Option<u64>,
    )
        ensures { self.new ≡ moved self.old (ScriptLine.Link key lose twice delay) }
    {
        self.stage = Stage::Linked;
        self.link = [
            key.unwrap_or(0),
            lose.unwrap_or(0),
            twice.unwrap_or(0),
            delay.unwrap_or(0),
        ];
    }

    fn set_ticks(&mut self, ticks: Option<u64>)
        requires { is_in_range (ScriptLine.Ticks ticks) ≡ true }
        ensures { self.new ≡ moved self.old (ScriptLine.Ticks ticks) }
    {
        self.stage = Stage::Timed;
        self.ticks = to_u32(ticks);
    }

    fn begin_first(&mut self, alloc: Global, line: NodeLine)
        requires { is_node_in_range line ≡ true }
        ensures { self.new ≡ moved self.old (ScriptLine.FirstNode line) }
    {
        self.stage = Stage::Declares;
        self.first = None;
        self.node = node_of(alloc, line);
    }

    fn begin_second(&mut self, alloc: Global, line: NodeLine)
        requires { is_node_in_range line ≡ true }
        ensures { self.new ≡ moved self.old (ScriptLine.SecondNode line) }
    {
        self.stage = Stage::Declares;
        self.first = Some(mem::replace(&mut self.node, node_of(alloc, line)));
    }

    fn open(&mut self, alloc: Global, owner: Owner)
        ensures { self.new ≡ opened self.old owner }
    {
        self.stage = Stage::InBody;
        self.owner = owner;
        self.body = List::new(alloc);
        self.depth = 0;
    }

    fn add_object(&mut self, decl: Decl) -> Result<(), NoMemory>
        ensures { OnOk result (self.new ≡ with_object self.old decl) }
    {
        self.node.decls.push(decl)?;
        self.stage = Stage::Declares;
        Ok(())
    }

    fn add_body_line(&mut self, line: Line) -> Result<(), NoMemory>
        requires { may_nest self.old.depth line ≡ true }
        ensures { OnOk result (self.new ≡ with_body_line self.old line) }
    {
        self.stage = Stage::InBody;
        self.depth = depth_after(self.depth, &line);
        self.body.push(line)?;
        Ok(())
    }

    fn close(&mut self, alloc: Global) -> Result<(), NoMemory>
        ensures { OnOk result (self.new ≡ moved self.old ScriptLine.End) }
    {
        let lines = mem::replace(&mut self.body, List::new(alloc));
        let declaration = self.owner.declaration(Body { lines });
        self.depth = 0;
        self.add_object(declaration)
    }

    /// Adds the line, which has no cause to be refused. Without memory the draft has no meaning.
    pub fn add(&mut self, alloc: Global, line: ScriptLine) -> Result<(), NoMemory>
        requires { cause self.old line ≡ None }
        ensures { OnOk result (self.new ≡ moved self.old line) }
    {
        match line {
            ScriptLine::Itron => self.stage = Stage::Headed,
            ScriptLine::Link {
                key,
                lose,
                twice,
                delay,
            } => self.set_link(key, lose, twice, delay),
            ScriptLine::Ticks { ticks } => self.set_ticks(ticks),
            ScriptLine::FirstNode(node) => self.begin_first(alloc, node),
            ScriptLine::SecondNode(node) => self.begin_second(alloc, node),
            ScriptLine::Sem { id, pri, init, max } => {
                self.add_object(Decl::Sem(semaphore_of(id, pri, init, max)))?;
            }
            ScriptLine::Flg {
                id,
                pri,
                many,
                clr,
                init,
            } => {
                self.add_object(Decl::Flg(flag_of(id, pri, many, clr, init)))?;
            }
            ScriptLine::Dtq { id, pri, cap } => self.add_object(Decl::Dtq(queue_of(id, pri, cap)))?,
            ScriptLine::Task { id, pri, act } => {
                self.open(alloc, Owner::Task(task_of(id, pri, act)));
            }
            ScriptLine::Cyc {
                id,
                period,
                phase,
                on,
            } => self.open(alloc, Owner::Cyc(cyclic_of(id, period, phase, on))),
            ScriptLine::Cbr { id } => self.open(alloc, Owner::Cbr(routine_of(id))),
            ScriptLine::Body { line, fits: _ } => self.add_body_line(line)?,
            ScriptLine::End => self.close(alloc)?,
        }
        Ok(())
    }
}
