ghost use Rattle.std.specs.Prelude.{◌≡◌};
ghost use Rattle.std.specs.Option.{option_map};
ghost use Rattle.spec_script.specs.Lines.{first_node, second_node};
ghost use Rattle.spec_sim.specs.Bodies.{body_of, cyclic_body, routine_body, handler_body};

use it_types::{Handler, ObjId, TaskId};
use spec_script::{Body, Decl, Script};

/// What node 0 declares.
pub fn first_decls(script: &Script) -> &[Decl]
    ensures { result.now ≡ (first_node script.now).decls }
{
    script.nodes[0].decls.as_slice()
}

/// What node 1 declares.
pub fn second_decls(script: &Script) -> &[Decl]
    ensures { result.now ≡ (second_node script.now).decls }
{
    script.nodes[1].decls.as_slice()
}

/// The task's body; none for a task that isn't declared.
pub fn body_of(decls: &[Decl], task: TaskId) -> Option<&Body>
    ensures { option_map (λ body. body.now) result ≡ body_of decls.now task }
{
    for decl in decls {
        if let Decl::Task(declared, body) = decl {
            if declared.id == task.0 {
                return Some(body);
            }
        }
    }
    None
}

/// The cyclic handler's body; none for one that isn't declared.
fn cyclic_body(decls: &[Decl], cyc: ObjId) -> Option<&Body>
    ensures { option_map (λ body. body.now) result ≡ cyclic_body decls.now cyc }
{
    for decl in decls {
        if let Decl::Cyc(declared, body) = decl {
            if declared.id == cyc.0 {
                return Some(body);
            }
        }
    }
    None
}

/// The callback routine's body; none for one that isn't declared.
fn routine_body(decls: &[Decl], cbr: ObjId) -> Option<&Body>
    ensures { option_map (λ body. body.now) result ≡ routine_body decls.now cbr }
{
    for decl in decls {
        if let Decl::Cbr(declared, body) = decl {
            if declared.0 == cbr.0 {
                return Some(body);
            }
        }
    }
    None
}

/// The handler's body; none for one that isn't declared.
pub fn handler_body<'a>(decls: &'a [Decl], handler: &Handler) -> Option<&'a Body>
    ensures { option_map (λ body. body.now) result ≡ handler_body decls.now handler.now }
{
    match handler {
        Handler::Cyc(cyc) => cyclic_body(decls, *cyc),
        Handler::Cbr { cbr, .. } => routine_body(decls, *cbr),
    }
}
