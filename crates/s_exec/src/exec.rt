ghost use Rattle.std.specs.Prelude.{◌≡◌, IfOk, OnOk, true, option_copied};
ghost use Rattle.spec_script.specs.Interpreter.{started, wanted, told, up_to_call, is_stopped};

use crate::open_loop::OpenLoop;
use crate::pattern::first_of_pattern;
use it_types::{E_OK, E_WBLK, EndPt, Er, Handler, NoMemory, NodeId, Req, TaskId};
use spec_script::{Body, Line, Want};
use std::alloc::Global;
use std::marker::Model;

/// What a body does, call by call, on the answers that it gets.
#[derive(Drop)]
pub struct Exec<'a> {
    /// The lines from the next one on.
    pub(crate) rest: &'a [Line],
    /// The innermost loop is the last.
    pub(crate) loops: Vec<OpenLoop<'a>>,
    /// The last answer's code.
    pub(crate) answer: Er,
    pub(crate) buffer: Vec<u8>,
    pub(crate) peer: EndPt,
    /// The next byte of the pattern.
    pub(crate) pattern: u8,
    pub(crate) is_handler: bool,
}

impl<'a> Model for Exec<'a> {
    ghost use Rattle.spec_script.specs.Interpreter.{Interpreter};

    ghost Value = { Interpreter };

    ghost use Rattle.s_exec.specs.Standing.{interpreter};

    ghost view = { interpreter };
}

impl<'a> Exec<'a> {
    /// Before the first line of a body of the task, or of the handler that was entered. A callback routine's last answer and
    /// buffer begin as the code and the bytes of the call that ended.
    pub fn start(
        alloc: Global,
        body: &'a Body,
        node: NodeId,
        task: TaskId,
        entered: Option<&Handler>,
    ) -> Result<Exec<'a>, NoMemory>
        ensures { IfOk result (λ exec. exec ≡ started body.now.lines node task (option_copied entered.entry)) }
    {
        let (answer, buffer) = match entered {
            Some(Handler::Cbr { code, bytes, .. }) => {
                (*code, Vec::from_slice(alloc, bytes.as_slice())?)
            }
            _ => (E_OK, Vec::new(alloc)),
        };
        let pattern_task = match entered {
            Some(_) => TaskId(0),
            None => task,
        };
        Ok(Exec {
            rest: body.lines.as_slice(),
            loops: Vec::new(alloc),
            answer,
            buffer,
            peer: EndPt { addr: 0, port: 0 },
            pattern: first_of_pattern(node, pattern_task),
            is_handler: entered.is_some(),
        })
    }

    /// What the body does next: its next call, or the handler's finish. A task ends after its last line.
    #[tactic(auto, using(spec_script::proofs::Passing::stops))]
    pub fn next(&mut self, alloc: Global) -> Result<Want, NoMemory>
        ensures answer { IfOk result (λ want. want ≡ wanted self.old) }
        ensures place { OnOk result (self.new ≡ up_to_call self.old) }
        ensures stops { OnOk result (is_stopped self.new.rest ≡ true) }
    {
        self.go_on(alloc)?;
        match self.rest {
            [Line::Call { req, buf, peer }, ..] => {
                Ok(Want::Call(self.request(alloc, req, *buf, *peer)?))
            }
            _ if self.is_handler => Ok(Want::Finish),
            _ => Ok(Want::Call(Req::ExtTsk)),
        }
    }

    /// Takes the answer to the call that the body made.
    pub fn told(&mut self, alloc: Global, code: Er, bytes: &[u8]) -> Result<(), NoMemory>
        ensures { OnOk result (self.new ≡ told code bytes.now self.old) }
    {
        self.go_on(alloc)?;
        self.answer = code;
        if let [Line::Call { req, buf, .. }, lines @ ..] = self.rest {
            if code != E_WBLK {
                self.take(alloc, req, *buf, code, bytes)?;
            }
            self.rest = lines;
        }
        Ok(())
    }
}
