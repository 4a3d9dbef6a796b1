//! Which declarations a kernel can be opened with (µITRON4.0 sections 2.1, 4.1, 4.4 and 4.7.2).

ghost use Rattle.std.specs.Prelude.{◌≡◌, ◌↔◌, ◌==◌, ℕ, Bool, true, IsTrue};
ghost use Rattle.std.specs.List.{list_all, list_any};
ghost use Rattle.it_types.specs.Table.{is_no_id};
ghost use Rattle.spec_lists.specs.Tables.{empty_table};
ghost use Rattle.spec_kernel.specs.Ids.{are_new_up_to, task_id};
ghost use Rattle.spec_kernel.specs.TaskOpening.{AreDeclarable as AreTasks, keeps_priority};
ghost use Rattle.spec_kernel.specs.SemaphoreBlocks.{keeps_ranges, semaphore_id};
ghost use Rattle.spec_kernel.specs.PlainSemaphores.{AreDeclarable as AreSemaphores};
ghost use Rattle.spec_kernel.specs.PlainFlags.{AreDeclarable as AreFlags};
ghost use Rattle.spec_kernel.specs.PlainQueues.{AreDeclarable as AreQueues};
ghost use Rattle.spec_kernel.specs.FlagBlocks.{flag_id};
ghost use Rattle.spec_kernel.specs.DataQueues.{keeps_capacity, queue_id};
ghost use Rattle.spec_kernel.specs.PlainClock.{AreDeclarable as AreCyclicHandlers, cyclic_id, keeps_times};
ghost use Rattle.spec_kernel.specs.Opening.{IsDeclarable};
ghost use Rattle.k_core.specs.Declarations.{is_each_declarable};

use it_types::{CycDecl, DtqDecl, FlgDecl, GREATEST_ID, SemDecl, TaskDecl};
use k_time::GREATEST_CYCLIC;

/// The greatest priority of a task.
const MAX_PRIORITY: u32 = 16;

/// The greatest maximum of a semaphore.
const MAX_COUNT: u32 = 65535;

/// The most items that a data queue holds.
const MAX_CAPACITY: u32 = 1024;

/// The greatest period and phase of a cyclic handler, in ticks.
const MAX_TICKS: u32 = 1_000_000;

/// What is declared of one object.
trait Declaration {
    ghost id_of: { Self → ℕ };

    ghost keeps: { Self → Bool };

    fn id(&self) -> u32
        ensures { result ≡ id_of self.now };

    /// Its numbers are in their ranges.
    fn keeps_ranges(&self) -> bool
        ensures { result ≡ keeps self.now };
}

impl Declaration for TaskDecl {
    ghost id_of = { task_id };

    ghost keeps = { keeps_priority };

    fn id(&self) -> u32 {
        self.id
    }

    fn keeps_ranges(&self) -> bool {
        (1..=MAX_PRIORITY).contains(&self.pri)
    }
}

impl Declaration for SemDecl {
    ghost id_of = { semaphore_id };

    ghost keeps = { keeps_ranges };

    fn id(&self) -> u32 {
        self.id
    }

    fn keeps_ranges(&self) -> bool {
        self.init <= self.max && (1..=MAX_COUNT).contains(&self.max)
    }
}

impl Declaration for FlgDecl {
    ghost id_of = { flag_id };

    ghost keeps = { λ _. true };

    fn id(&self) -> u32 {
        self.id
    }

    fn keeps_ranges(&self) -> bool {
        true
    }
}

impl Declaration for DtqDecl {
    ghost id_of = { queue_id };

    ghost keeps = { keeps_capacity };

    fn id(&self) -> u32 {
        self.id
    }

    fn keeps_ranges(&self) -> bool {
        self.cap <= MAX_CAPACITY
    }
}

impl Declaration for CycDecl {
    ghost id_of = { cyclic_id };

    ghost keeps = { keeps_times };

    fn id(&self) -> u32 {
        self.id
    }

    fn keeps_ranges(&self) -> bool {
        (1..=MAX_TICKS).contains(&self.period) && self.phase <= MAX_TICKS
    }
}

/// The id is none of a kind with ids up to the greatest.
fn is_wrong_id(id: u32, greatest: u32) -> bool
    ensures { result ≡ is_no_id greatest id }
{
    id == 0 || id > greatest
}

/// Whether one of the declarations has this id.
fn has_id<D: Declaration>(decls: &[D], id: u32) -> bool
    ensures { result ≡ list_any (λ d. D.id_of d == id) decls.now }
{
    decls.iter().any(|decl| decl.id() == id)
}

/// Whether each declaration has an id from 1 to the greatest that none before it has. Of more than there are ids no more than one is
/// looked at.
fn are_new<D: Declaration>(decls: &[D], greatest: u32) -> bool
    ensures { result ≡ are_new_up_to greatest D.id_of (λ d. d) (empty_table greatest) decls.now }
{
    for (i, decl) in decls.iter().enumerate() {
        let id = decl.id();
        if is_wrong_id(id, greatest) || has_id(&decls[..i], id) {
            return false;
        }
    }
    true
}

/// Whether each declaration keeps its ranges.
fn keep_ranges<D: Declaration>(decls: &[D]) -> bool
    ensures { result ≡ list_all D.keeps decls.now }
{
    decls.iter().all(|decl| decl.keeps_ranges())
}

/// Whether the declarations of one kind have ids from 1 to the greatest, each once, and keep their ranges.
fn are_declarable<D: Declaration>(decls: &[D], greatest: u32) -> bool
    ensures { result ≡ is_each_declarable greatest D.id_of D.keeps decls.now }
{
    are_new(decls, greatest) && keep_ranges(decls)
}

fn are_tasks(decls: &[TaskDecl]) -> bool
    ensures { IsTrue result ↔ AreTasks decls.now }
{
    are_declarable(decls, GREATEST_ID)
}

fn are_semaphores(decls: &[SemDecl]) -> bool
    ensures { IsTrue result ↔ AreSemaphores decls.now }
{
    are_declarable(decls, GREATEST_ID)
}

fn are_flags(decls: &[FlgDecl]) -> bool
    ensures { IsTrue result ↔ AreFlags decls.now }
{
    are_declarable(decls, GREATEST_ID)
}

fn are_queues(decls: &[DtqDecl]) -> bool
    ensures { IsTrue result ↔ AreQueues decls.now }
{
    are_declarable(decls, GREATEST_ID)
}

fn are_cyclic_handlers(decls: &[CycDecl]) -> bool
    ensures { IsTrue result ↔ AreCyclicHandlers decls.now }
{
    are_declarable(decls, GREATEST_CYCLIC)
}

/// Whether a kernel can be opened with these declarations: each id is from 1 to 16, of a cyclic handler from 1 to 8, and is declared
/// once in its kind. A task has a priority from 1 to 16; a semaphore has a maximum from 1 to 65,535 and at first no more than that;
/// a data queue holds up to 1,024 items; a cyclic handler has a period from 1 to 1,000,000 ticks and a phase up to 1,000,000.
pub fn is_declarable(
    tasks: &[TaskDecl],
    sems: &[SemDecl],
    flags: &[FlgDecl],
    dtqs: &[DtqDecl],
    cycs: &[CycDecl],
) -> bool
    ensures { IsTrue result ↔ IsDeclarable (record {
      tasks = record { tasks = tasks.now };
      sync = record { sems = sems.now; flags = flags.now; dtqs = dtqs.now };
      cycs = record { cycs = cycs.now };
    }) }
{
    are_tasks(tasks)
        && are_semaphores(sems)
        && are_flags(flags)
        && are_queues(dtqs)
        && are_cyclic_handlers(cycs)
}
