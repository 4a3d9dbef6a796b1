//! What a line declares, and whether a node has declared an id of its kind before.

ghost use Rattle.std.specs.Prelude.{◌≡◌, true, ◌<◌, ◌^◌, unwrap_or};
ghost use Rattle.std.specs.Option.{ForSome};
ghost use Rattle.std.specs.List.{list_any};
ghost use Rattle.spec_script.specs.Ranges.{is_in_range, is_task, is_semaphore, is_flag, is_queue, is_cyclic, is_routine};
ghost use Rattle.s_script.specs.Drafts.{task_of, semaphore_of, flag_of, queue_of, cyclic_of, routine_of};

use it_types::{CycDecl, DtqDecl, FlgDecl, ObjId, SemDecl, TaskDecl};
use spec_script::{Decl, ScriptLine};

/// The number, which has 32 bits; 0 where it is not there.
pub fn to_u32(number: Option<u64>) -> u32
    requires { ForSome number (λ n. n < 2 ^ 32) }
    ensures { result ≡ unwrap_or number 0 }
{
    match number {
        Some(number) => number as u32,
        None => 0,
    }
}

pub fn task_of(id: Option<u64>, pri: Option<u64>, act: bool) -> TaskDecl
    requires { is_in_range (ScriptLine.Task id pri act) ≡ true }
    ensures { result ≡ task_of id pri act }
{
    TaskDecl {
        id: to_u32(id),
        pri: to_u32(pri),
        act,
    }
}

pub fn semaphore_of(id: Option<u64>, pri: bool, init: Option<u64>, max: Option<u64>) -> SemDecl
    requires { is_in_range (ScriptLine.Sem id pri init max) ≡ true }
    ensures { result ≡ semaphore_of id pri init max }
{
    SemDecl {
        id: to_u32(id),
        pri,
        init: to_u32(init),
        max: to_u32(max),
    }
}

pub fn flag_of(id: Option<u64>, pri: bool, many: bool, clr: bool, init: Option<u64>) -> FlgDecl
    requires { is_in_range (ScriptLine.Flg id pri many clr init) ≡ true }
    ensures { result ≡ flag_of id pri many clr init }
{
    FlgDecl {
        id: to_u32(id),
        pri,
        many,
        clr,
        init: to_u32(init),
    }
}

pub fn queue_of(id: Option<u64>, pri: bool, cap: Option<u64>) -> DtqDecl
    requires { is_in_range (ScriptLine.Dtq id pri cap) ≡ true }
    ensures { result ≡ queue_of id pri cap }
{
    DtqDecl {
        id: to_u32(id),
        pri,
        cap: to_u32(cap),
    }
}

pub fn cyclic_of(id: Option<u64>, period: Option<u64>, phase: Option<u64>, on: bool) -> CycDecl
    requires { is_in_range (ScriptLine.Cyc id period phase on) ≡ true }
    ensures { result ≡ cyclic_of id period phase on }
{
    CycDecl {
        id: to_u32(id),
        period: to_u32(period),
        phase: to_u32(phase),
        on,
    }
}

pub fn routine_of(id: Option<u64>) -> ObjId
    requires { is_in_range (ScriptLine.Cbr id) ≡ true }
    ensures { result ≡ routine_of id }
{
    ObjId(to_u32(id))
}

fn is_task(decl: &Decl, id: u64) -> bool
    ensures { result ≡ is_task id decl.now }
{
    match decl {
        Decl::Task(task, _) => u64::from(task.id) == id,
        _ => false,
    }
}

fn is_semaphore(decl: &Decl, id: u64) -> bool
    ensures { result ≡ is_semaphore id decl.now }
{
    match decl {
        Decl::Sem(sem) => u64::from(sem.id) == id,
        _ => false,
    }
}

fn is_flag(decl: &Decl, id: u64) -> bool
    ensures { result ≡ is_flag id decl.now }
{
    match decl {
        Decl::Flg(flag) => u64::from(flag.id) == id,
        _ => false,
    }
}

fn is_queue(decl: &Decl, id: u64) -> bool
    ensures { result ≡ is_queue id decl.now }
{
    match decl {
        Decl::Dtq(queue) => u64::from(queue.id) == id,
        _ => false,
    }
}

fn is_cyclic(decl: &Decl, id: u64) -> bool
    ensures { result ≡ is_cyclic id decl.now }
{
    match decl {
        Decl::Cyc(cyc, _) => u64::from(cyc.id) == id,
        _ => false,
    }
}

fn is_routine(decl: &Decl, id: u64) -> bool
    ensures { result ≡ is_routine id decl.now }
{
    match decl {
        Decl::Cbr(cbr, _) => u64::from(cbr.0) == id,
        _ => false,
    }
}

pub fn declares_task(decls: &[Decl], id: u64) -> bool
    ensures { result ≡ list_any (is_task id) decls.now }
{
    decls.iter().any(|decl| is_task(decl, id))
}

pub fn declares_semaphore(decls: &[Decl], id: u64) -> bool
    ensures { result ≡ list_any (is_semaphore id) decls.now }
{
    decls.iter().any(|decl| is_semaphore(decl, id))
}

pub fn declares_flag(decls: &[Decl], id: u64) -> bool
    ensures { result ≡ list_any (is_flag id) decls.now }
{
    decls.iter().any(|decl| is_flag(decl, id))
}

pub fn declares_queue(decls: &[Decl], id: u64) -> bool
    ensures { result ≡ list_any (is_queue id) decls.now }
{
    decls.iter().any(|decl| is_queue(decl, id))
}

pub fn declares_cyclic(decls: &[Decl], id: u64) -> bool
    ensures { result ≡ list_any (is_cyclic id) decls.now }
{
    decls.iter().any(|decl| is_cyclic(decl, id))
}

pub fn declares_routine(decls: &[Decl], id: u64) -> bool
    ensures { result ≡ list_any (is_routine id) decls.now }
{
    decls.iter().any(|decl| is_routine(decl, id))
}
