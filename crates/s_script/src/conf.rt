ghost use Rattle.std.specs.Prelude.{◌≡◌, IfOk};
ghost use Rattle.spec_script.specs.Configuration.{declared_tasks, declared_semaphores, declared_flags, declared_queues, declared_cyclics, declared_routines, node_conf, conf_of};

use it_types::{
    Conf, CycDecl, DtqDecl, FlgDecl, List, NoMemory, NodeConf, ObjId, SemDecl, TaskDecl,
};
use spec_script::{Decl, NodeDecl, Script};
use std::alloc::Global;

fn declared_tasks(alloc: Global, decls: &[Decl]) -> Result<List<TaskDecl>, NoMemory>
    ensures { IfOk result (λ list. list ≡ declared_tasks decls.now) }
{
    let mut list = List::new(alloc);
    for decl in decls {
        if let Decl::Task(task, _) = decl {
            list.push(*task)?;
        }
    }
    Ok(list)
}

fn declared_semaphores(alloc: Global, decls: &[Decl]) -> Result<List<SemDecl>, NoMemory>
    ensures { IfOk result (λ list. list ≡ declared_semaphores decls.now) }
{
    let mut list = List::new(alloc);
    for decl in decls {
        if let Decl::Sem(sem) = decl {
            list.push(*sem)?;
        }
    }
    Ok(list)
}

fn declared_flags(alloc: Global, decls: &[Decl]) -> Result<List<FlgDecl>, NoMemory>
    ensures { IfOk result (λ list. list ≡ declared_flags decls.now) }
{
    let mut list = List::new(alloc);
    for decl in decls {
        if let Decl::Flg(flag) = decl {
            list.push(*flag)?;
        }
    }
    Ok(list)
}

fn declared_queues(alloc: Global, decls: &[Decl]) -> Result<List<DtqDecl>, NoMemory>
    ensures { IfOk result (λ list. list ≡ declared_queues decls.now) }
{
    let mut list = List::new(alloc);
    for decl in decls {
        if let Decl::Dtq(queue) = decl {
            list.push(*queue)?;
        }
    }
    Ok(list)
}

fn declared_cyclics(alloc: Global, decls: &[Decl]) -> Result<List<CycDecl>, NoMemory>
    ensures { IfOk result (λ list. list ≡ declared_cyclics decls.now) }
{
    let mut list = List::new(alloc);
    for decl in decls {
        if let Decl::Cyc(cyc, _) = decl {
            list.push(*cyc)?;
        }
    }
    Ok(list)
}

fn declared_routines(alloc: Global, decls: &[Decl]) -> Result<List<ObjId>, NoMemory>
    ensures { IfOk result (λ list. list ≡ declared_routines decls.now) }
{
    let mut list = List::new(alloc);
    for decl in decls {
        if let Decl::Cbr(cbr, _) = decl {
            list.push(*cbr)?;
        }
    }
    Ok(list)
}

fn node_conf(alloc: Global, node: &NodeDecl) -> Result<NodeConf, NoMemory>
    ensures { IfOk result (λ conf. conf ≡ node_conf node.now) }
{
    Ok(NodeConf {
        addr: node.addr,
        isn0: node.isn0,
        top0: node.top0,
        tasks: declared_tasks(alloc, node.decls.as_slice())?,
        sems: declared_semaphores(alloc, node.decls.as_slice())?,
        flags: declared_flags(alloc, node.decls.as_slice())?,
        dtqs: declared_queues(alloc, node.decls.as_slice())?,
        cycs: declared_cyclics(alloc, node.decls.as_slice())?,
        cbrs: declared_routines(alloc, node.decls.as_slice())?,
    })
}

/// What the two nodes of the script begin with.
pub fn conf_of(alloc: Global, s: &Script) -> Result<Conf, NoMemory>
    ensures { IfOk result (λ c. c ≡ conf_of s.now) }
{
    let first = node_conf(alloc, &s.nodes[0])?;
    let second = node_conf(alloc, &s.nodes[1])?;
    Ok(Conf {
        nodes: [first, second],
    })
}
