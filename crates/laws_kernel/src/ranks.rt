ghost use Rattle.std.specs.Prelude.{◌≡◌, Bool, List};
ghost use Rattle.it_types.specs.declared.conf.KConf.{KConf};
ghost use Rattle.it_types.specs.declared.id.TaskId.{TaskId as ATaskId};
ghost use Rattle.spec_lists.specs.First.{take_first, take_least};
ghost use Rattle.spec_kernel.specs.declared.reason.WaitingCall.{WaitingCall as AWaitingCall};
ghost use Rattle.spec_kernel.specs.PlainTasks.{PlainTasks, running};
ghost use Rattle.spec_kernel.specs.Opening.{IsDeclarable, opened};
ghost use Rattle.laws_kernel.specs.Rising.{Rises};
ghost use Rattle.laws_kernel.specs.Ranks.{ComesFirstOf, Operation, OrderedAlong, Ranks, call_rank, opened_ranks, task_rank};

/// The kernel's ranks are places in two lists: of the runnable tasks, and of the calls that wait. A kernel that keeps numbers
/// in place of places does the same. For let a number be drawn whenever a rank is new: when a task becomes runnable
/// (µITRON4.0 section 3.2), when a call begins to wait, and when a task or its call is put last, as by a new priority. Then
/// over every list of operations the numbers rise along both lists (`along`). So the running task is of the runnable ones the
/// one of the least priority and, among equals, of the least number (`running`); and wherever the first is taken that passes
/// some test, it is the one of the least number of those that pass (`tasks`, `calls`).
#[tactic(auto, using(crate::proofs::Ranked::ordered_from_opening, crate::proofs::Foremost::running_first, crate::proofs::Rising::first_is_least))]
pub fn places_are_ranks()
    ensures along { (conf : KConf) (operations : List Operation) → IsDeclarable conf → OrderedAlong (opened conf) (opened_ranks conf) operations }
    ensures running { (d : PlainTasks) (r : Ranks) → Rises (task_rank r) d.runnable → ComesFirstOf d.tasks r (running d) d.runnable }
    ensures tasks { (r : Ranks) (ts : List ATaskId) (passes : ATaskId → Bool) → Rises (task_rank r) ts → take_least passes (task_rank r) ts ≡ take_first passes ts }
    ensures calls { (ws : List AWaitingCall) (passes : AWaitingCall → Bool) → Rises call_rank ws → take_least passes call_rank ws ≡ take_first passes ws }
{}
