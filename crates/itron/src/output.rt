//! What is written of a script.

ghost use Rattle.std.specs.Prelude.{◌≡◌, ℕ, Err, IfOk};
ghost use Rattle.s_script.specs.declared.read_bad.Why.{Why as Cause};
ghost use Rattle.s_script.specs.Reading.{read_text};
ghost use Rattle.spec_script.specs.declared.script.Script.{Script as AScript};
ghost use Rattle.spec_script.specs.Ranges.{IsGood};
ghost use Rattle.spec_script.specs.Text.{IsReadAs};
ghost use Rattle.itron.specs.declared.status.Status.{Status as AStatus};
ghost use Rattle.itron.specs.Prints.{Prints};
ghost use Rattle.itron.specs.Top.{IsRefusal};

use crate::status::Status;
use it_types::NoMemory;
use s_script::{ReadBad, read};
use spec_script::Script;
use std::alloc::Global;
use w_sim::sim;

/// The output of a script, and whether its history ends with the stop.
#[derive(Debug, Drop)]
pub struct Output {
    pub text: Vec<u8>,
    pub stops: bool,
}

/// The script's printed form, the line `trace`, and its history.
fn output_of(alloc: Global, script: &Script) -> Result<Output, NoMemory>
    requires { IsGood script.now }
    ensures { IfOk result (λ o. Prints script.now o) }
{
    let mut text = Vec::new(alloc);
    s_script::print_into(alloc, script, &mut text)?;
    text.extend_from_slice(b"trace\n")?;
    let world = sim(alloc, script)?;
    w_trace::print_into(alloc, world.log(), &mut text)?;
    Ok(Output {
        text,
        stops: world.stopped(),
    })
}

fn output_or_status(alloc: Global, script: &Script) -> Result<Output, Status>
    requires { IsGood script.now }
    ensures ok { IfOk result (λ o. Prints script.now o) }
    ensures err { (e : AStatus) → result ≡ Err e → e ≡ Status.NoMemory }
{
    match output_of(alloc, script) {
        Ok(output) => Ok(output),
        Err(NoMemory) => Err(Status::NoMemory),
    }
}

/// The whole output for an input that is a script; else its first wrong line, with the first cause.
pub fn output_for(alloc: Global, input: &[u8]) -> Result<Output, Status>
    ensures ok { IfOk result (λ o. (s : AScript) × IsReadAs input.now s × Prints s o) }
    ensures script { (l : ℕ) (w : Cause) → result ≡ Err (Status.Script l w) → read_text input.now ≡ Err (l, w) }
    ensures only { (e : AStatus) → result ≡ Err e → IsRefusal e }
{
    match read(alloc, input) {
        Ok(script) => output_or_status(alloc, &script),
        Err(ReadBad::Refused(line, why)) => Err(Status::Script(line, why)),
        Err(ReadBad::NoMemory) => Err(Status::NoMemory),
    }
}
