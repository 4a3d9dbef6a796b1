ghost use Rattle.std.specs.Prelude.{◌≡◌, OnOk, Bool};
ghost use Rattle.spec_script.specs.Interpreter.{is_stopped, passed_next, up_to_call, filled, loop_opened, round_ended, loop_left, left_if, after_pool};

use crate::exec::Exec;
use crate::open_loop::OpenLoop;
use crate::pattern::pattern_bytes;
use it_types::NoMemory;
use spec_script::Line;
use std::alloc::Global;

impl<'a> Exec<'a> {
    /// Passes the lines up to the next call, or to the end of the body.
    pub(crate) fn go_on(&mut self, alloc: Global) -> Result<(), NoMemory>
        ensures { OnOk result (self.new ≡ up_to_call self.old) }
    {
        while !self.is_stopped() {
            self.pass_line(alloc)?;
        }
        Ok(())
    }

    /// Whether a call is next, or the body is at its end.
    fn is_stopped(&self) -> bool
        ensures { result ≡ is_stopped self.now.rest }
    {
        match self.rest {
            [] | [Line::Call { .. }, ..] => true,
            _ => false,
        }
    }

    /// Passes the next line, unless it is a call.
    fn pass_line(&mut self, alloc: Global) -> Result<(), NoMemory>
        ensures { OnOk result (self.new ≡ passed_next self.old) }
    {
        let [line, lines @ ..] = self.rest else {
            return Ok(());
        };
        let answer = self.answer.0;
        let is_empty = self.buffer.is_empty();
        match *line {
            Line::Call { .. } => {}
            Line::Fill(bytes) => self.fill(alloc, bytes, lines)?,
            Line::Loop(rounds) => self.open_loop(rounds, lines)?,
            Line::Pool => self.end_round(lines),
            Line::UntilEnd => self.leave_if(answer <= 0, lines),
            Line::UntilFail => self.leave_if(answer < 0, lines),
            Line::UntilEmpty => self.leave_if(is_empty, lines),
        }
        Ok(())
    }

    /// Sets the buffer to so many bytes of the pattern, which goes on after them.
    fn fill(&mut self, alloc: Global, bytes: u32, lines: &'a [Line]) -> Result<(), NoMemory>
        ensures { OnOk result (self.new ≡ filled bytes lines.now self.old) }
    {
        self.buffer = pattern_bytes(alloc, bytes, self.pattern)?;
        self.pattern = self.pattern.wrapping_add((bytes % 256) as u8);
        self.rest = lines;
        Ok(())
    }

    fn open_loop(&mut self, rounds: u32, lines: &'a [Line]) -> Result<(), NoMemory>
        ensures { OnOk result (self.new ≡ loop_opened rounds lines.now self.old) }
    {
        self.loops.push(OpenLoop {
            lines,
            rounds: rounds.saturating_sub(1),
        })?;
        self.rest = lines;
        Ok(())
    }

    /// Begins another round of the innermost loop, or goes on after it; outside any loop it goes on.
    fn end_round(&mut self, lines: &'a [Line])
        ensures { self.new ≡ round_ended self.old.loops lines.now self.old }
    {
        self.rest = lines;
        let Some(inner) = self.loops.last_mut() else {
            return;
        };
        if inner.rounds == 0 {
            let _ = self.loops.pop();
            return;
        }
        inner.rounds -= 1;
        self.rest = inner.lines;
    }

    /// Leaves the innermost loop where the test holds.
    fn leave_if(&mut self, leaves: bool, lines: &'a [Line])
        ensures { self.new ≡ left_if leaves lines.now self.old }
    {
        self.rest = lines;
        if leaves && self.loops.pop().is_some() {
            self.rest = after_pool(lines);
        }
    }
}

/// The lines after the pool of the loop that is open around these lines.
#[tactic(auto, unfolding(spec_script::specs::Interpreter::after_pool))]
fn after_pool(lines: &[Line]) -> &[Line]
    ensures { result.now ≡ after_pool 0 lines.now }
{
    let mut inner: usize = 0;
    let mut rest = lines;
    while let [line, others @ ..] = rest {
        match line {
            Line::Loop(_) => inner += 1,
            Line::Pool => {
                if inner == 0 {
                    return others;
                }
                inner -= 1;
            }
            _ => {}
        }
        rest = others;
    }
    rest
}
