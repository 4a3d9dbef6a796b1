ghost use Rattle.std.specs.Prelude.{◌≡◌};
ghost use Rattle.s_script.specs.Owners.{may_have, declaration_of};
ghost use Rattle.spec_script.specs.Ranges.{is_exit_line};

use it_types::{CycDecl, ObjId, Req, TaskDecl};
use spec_script::{Body, Decl, Line};

/// What a body is declared with.
#[derive(Clone, Copy, Debug)]
pub enum Owner {
    Task(TaskDecl),
    Cyc(CycDecl),
    Cbr(ObjId),
}

/// Whether the line is `ext_tsk`, with which a task ends.
fn is_exit_line(line: &Line) -> bool
    ensures { result ≡ is_exit_line line.now }
{
    matches!(
        line,
        Line::Call {
            req: Req::ExtTsk,
            ..
        }
    )
}

impl Owner {
    /// Whether its body may have the line: that of a handler has no `ext_tsk`.
    pub fn may_have(self, line: &Line) -> bool
        ensures { result ≡ may_have self line.now }
    {
        match self {
            Owner::Task(_) => true,
            Owner::Cyc(_) | Owner::Cbr(_) => !is_exit_line(line),
        }
    }

    /// Its declaration, with its body.
    pub fn declaration(self, body: Body) -> Decl
        ensures { result ≡ declaration_of self body }
    {
        match self {
            Owner::Task(task) => Decl::Task(task, body),
            Owner::Cyc(cyc) => Decl::Cyc(cyc, body),
            Owner::Cbr(cbr) => Decl::Cbr(cbr, body),
        }
    }
}
