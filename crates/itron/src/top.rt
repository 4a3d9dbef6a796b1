ghost use Rattle.std.specs.Prelude.{◌≡◌, ◌≢◌, ◌↔◌, ◌⊎◌, ℕ, ◌≤◌, ◌+◌, true, false, List, [], length, map, string_bytes, Option, Some, Err, IfOk, OnOk, OnErr};
ghost use Rattle.std.specs.Io.KnownBytes.{Appends};
ghost use Rattle.it_io.specs.Faults.{Rose, next_count};
ghost use Rattle.it_io.specs.Input.{ReadToEnd, TookAtMost, TookPast};
ghost use Rattle.s_script.specs.declared.read_bad.Why.{Why as Cause};
ghost use Rattle.s_script.specs.Reading.{read_text};
ghost use Rattle.spec_script.specs.declared.script.Script.{Script as AScript};
ghost use Rattle.spec_script.specs.Text.{IsReadAs};
ghost use Rattle.spec_world.specs.History.{ends_with_stop};
ghost use Rattle.spec_sim.specs.Serial.{serial};
ghost use Rattle.itron.specs.declared.status.Status.{Status as AStatus};
ghost use Rattle.itron.specs.Top.{sim_words, input_limit, output_of, IsAnswer, ReadScript, RanToStop, RanToLimit, ReadWrong, WrotePart, RanPart};

use crate::output::{Output, output_for};
use crate::status::Status;
use crate::words::is_sim;
use it_io::{ReadErr, Sink, Source, WriteErr, read_all, write_all};
use std::alloc::Global;

/// The most bytes of an input.
const INPUT_LIMIT: usize = 1_048_576;

/// The whole input.
fn input_of<S: Source>(alloc: Global, src: &mut S) -> Result<Vec<u8>, Status>
    ensures ok { IfOk result (λ v. ReadToEnd (S.left src.old) (S.left src.new) v.items) }
    ensures read_fault { result ≡ Err Status.ReadFault → Rose (S.faults src.old) (S.faults src.new) }
    ensures no_fault { result ≢ Err Status.ReadFault → S.faults src.new ≡ S.faults src.old }
    ensures too_big { result ≡ Err Status.TooBig → TookPast (S.left src.old) (S.left src.new) input_limit }
    ensures within { IfOk result (λ v. length v.items ≤ input_limit) }
    ensures fault_within { result ≡ Err Status.ReadFault → TookAtMost (S.left src.old) (S.left src.new) input_limit }
    ensures no_memory { result ≡ Err Status.NoMemory → TookAtMost (S.left src.old) (S.left src.new) input_limit }
    ensures most { TookAtMost (S.left src.old) (S.left src.new) (input_limit + 1) }
    ensures ended { OnOk result (S.ends src.new ≡ next_count (S.ends src.old)) }
    ensures not_ended { OnErr result (S.ends src.new ≡ S.ends src.old) }
    ensures only { (e : AStatus) → result ≡ Err e → (e ≡ Status.ReadFault) ⊎ ((e ≡ Status.TooBig) ⊎ (e ≡ Status.NoMemory)) }
{
    match read_all(alloc, src, INPUT_LIMIT) {
        Ok(input) => Ok(input),
        Err(ReadErr::Fault) => Err(Status::ReadFault),
        Err(ReadErr::TooBig) => Err(Status::TooBig),
        Err(ReadErr::NoMemory) => Err(Status::NoMemory),
    }
}

fn write_output<K: Sink>(out: &mut K, output: &Output) -> Status
    ensures ok { result ≡ Status.Ok → Appends (K.written out.old) (K.written out.new) output.now.text.items × (output.now.stops ≡ true) }
    ensures too_long { result ≡ Status.TooLong → Appends (K.written out.old) (K.written out.new) output.now.text.items × (output.now.stops ≡ false) }
    ensures write_fault { result ≡ Status.WriteFault → Rose (K.faults out.old) (K.faults out.new) }
    ensures part { result ≡ Status.WriteFault → WrotePart (K.written out.old) (K.written out.new) output.now.text.items }
    ensures no_write_fault { result ≢ Status.WriteFault → K.faults out.new ≡ K.faults out.old }
    ensures only { (result ≡ Status.Ok) ⊎ ((result ≡ Status.TooLong) ⊎ (result ≡ Status.WriteFault)) }
{
    match write_all(out, &output.text) {
        Ok(()) if output.stops => Status::Ok,
        Ok(()) => Status::TooLong,
        Err(WriteErr::Fault(_)) => Status::WriteFault,
    }
}

/// Writes the output for the whole input.
fn answer<K: Sink>(alloc: Global, input: &[u8], out: &mut K) -> Status
    ensures ok { result ≡ Status.Ok → (s : AScript) × IsReadAs input.now s × Appends (K.written out.old) (K.written out.new) (output_of s) × (ends_with_stop (serial s) ≡ true) }
    ensures too_long { result ≡ Status.TooLong → (s : AScript) × IsReadAs input.now s × Appends (K.written out.old) (K.written out.new) (output_of s) × (ends_with_stop (serial s) ≡ false) }
    ensures script { (l : ℕ) (w : Cause) → result ≡ Status.Script l w → read_text input.now ≡ Err (l, w) }
    ensures write_fault { result ≡ Status.WriteFault → Rose (K.faults out.old) (K.faults out.new) }
    ensures was_script { result ≡ Status.WriteFault → (s : AScript) × IsReadAs input.now s }
    ensures part { result ≡ Status.WriteFault → (s : AScript) × IsReadAs input.now s × WrotePart (K.written out.old) (K.written out.new) (output_of s) }
    ensures no_write_fault { result ≢ Status.WriteFault → K.faults out.new ≡ K.faults out.old }
    ensures untouched { (result ≢ Status.Ok) → (result ≢ Status.TooLong) → (result ≢ Status.WriteFault) → out.new ≡ out.old }
    ensures only { IsAnswer result }
{
    match output_for(alloc, input) {
        Ok(output) => write_output(out, &output),
        Err(status) => status,
    }
}

/// Reads a script and writes its printed form and its history.
fn run<S: Source, K: Sink>(alloc: Global, src: &mut S, out: &mut K) -> Status
    ensures ok { result ≡ Status.Ok → RanToStop (S.left src.old) (S.left src.new) (K.written out.old) (K.written out.new) }
    ensures too_long { result ≡ Status.TooLong → RanToLimit (S.left src.old) (S.left src.new) (K.written out.old) (K.written out.new) }
    ensures usage { result ≢ Status.Usage }
    ensures script { (l : ℕ) (w : Cause) → result ≡ Status.Script l w → ReadWrong l w (S.left src.old) (S.left src.new) }
    ensures read_fault { result ≡ Status.ReadFault → Rose (S.faults src.old) (S.faults src.new) }
    ensures no_fault { result ≢ Status.ReadFault → S.faults src.new ≡ S.faults src.old }
    ensures write_fault { result ≡ Status.WriteFault → Rose (K.faults out.old) (K.faults out.new) }
    ensures was_script { result ≡ Status.WriteFault → ReadScript (S.left src.old) (S.left src.new) }
    ensures part { result ≡ Status.WriteFault → RanPart (S.left src.old) (S.left src.new) (K.written out.old) (K.written out.new) }
    ensures too_big { result ≡ Status.TooBig → TookPast (S.left src.old) (S.left src.new) input_limit }
    ensures within { (result ≢ Status.TooBig) → TookAtMost (S.left src.old) (S.left src.new) input_limit }
    ensures no_write_fault { result ≢ Status.WriteFault → K.faults out.new ≡ K.faults out.old }
    ensures ended { (result ≢ Status.ReadFault) → (result ≢ Status.TooBig) → (result ≢ Status.NoMemory) → S.ends src.new ≡ next_count (S.ends src.old) }
    ensures end_once { (S.ends src.new ≡ S.ends src.old) ⊎ (S.ends src.new ≡ next_count (S.ends src.old)) }
    ensures most { TookAtMost (S.left src.old) (S.left src.new) (input_limit + 1) }
    ensures nothing_written { (result ≢ Status.Ok) → (result ≢ Status.TooLong) → (result ≢ Status.WriteFault) → out.new ≡ out.old }
{
    match input_of(alloc, src) {
        Ok(input) => answer(alloc, &input, out),
        Err(status) => status,
    }
}

/// Runs the command that the words name, the words after the program's name: the one word `sim` reads a script from the
/// source, and writes its printed form, the line `trace` and its whole history to the sink. `TooLong` tells that the history
/// is full without the stop; its output was written.
pub fn top<S: Source, K: Sink>(alloc: Global, words: &[String], src: &mut S, out: &mut K) -> Status
    // The source was read to its end, as a script whose whole output was written, up to the stop.
    ensures ok { result ≡ Status.Ok → RanToStop (S.left src.old) (S.left src.new) (K.written out.old) (K.written out.new) }

    // The same, where the history is full without the stop.
    ensures too_long { result ≡ Status.TooLong → RanToLimit (S.left src.old) (S.left src.new) (K.written out.old) (K.written out.new) }

    // Each other status with its cause.
    ensures usage { (result ≡ Status.Usage) ↔ (map string_bytes words.now ≢ sim_words) }
    ensures script { (l : ℕ) (w : Cause) → result ≡ Status.Script l w → ReadWrong l w (S.left src.old) (S.left src.new) }
    ensures read_fault { result ≡ Status.ReadFault → Rose (S.faults src.old) (S.faults src.new) }
    ensures no_fault { result ≢ Status.ReadFault → S.faults src.new ≡ S.faults src.old }
    ensures write_fault { result ≡ Status.WriteFault → Rose (K.faults out.old) (K.faults out.new) }
    ensures was_script { result ≡ Status.WriteFault → ReadScript (S.left src.old) (S.left src.new) }
    ensures part { result ≡ Status.WriteFault → RanPart (S.left src.old) (S.left src.new) (K.written out.old) (K.written out.new) }
    ensures too_big { result ≡ Status.TooBig → TookPast (S.left src.old) (S.left src.new) input_limit }
    ensures within { (result ≢ Status.TooBig) → TookAtMost (S.left src.old) (S.left src.new) input_limit }
    ensures no_write_fault { result ≢ Status.WriteFault → K.faults out.new ≡ K.faults out.old }
    ensures end_once { (S.ends src.new ≡ S.ends src.old) ⊎ (S.ends src.new ≡ next_count (S.ends src.old)) }
    ensures most { TookAtMost (S.left src.old) (S.left src.new) (input_limit + 1) }

    // The source was read to its end, which it told once.
    ensures ended { (result ≢ Status.Usage) → (result ≢ Status.ReadFault) → (result ≢ Status.TooBig) → (result ≢ Status.NoMemory) → S.ends src.new ≡ next_count (S.ends src.old) }

    // What stays as it was.
    ensures usage_reads_nothing { result ≡ Status.Usage → src.new ≡ src.old }
    ensures nothing_written { (result ≢ Status.Ok) → (result ≢ Status.TooLong) → (result ≢ Status.WriteFault) → out.new ≡ out.old }

    // An input that the source tells is answered by what it is.
    ensures complete { (bytes : List ℕ) (s : AScript) → map string_bytes words.now ≡ sim_words → S.left src.old ≡ Some bytes → length bytes ≤ input_limit
        → IsReadAs bytes s → (Rose (S.faults src.old) (S.faults src.new) → ⊥) → (Rose (K.faults out.old) (K.faults out.new) → ⊥)
        → ends_with_stop (serial s) ≡ true → (result ≡ Status.Ok) ⊎ (result ≡ Status.NoMemory) }
    ensures complete_to_limit { (bytes : List ℕ) (s : AScript) → map string_bytes words.now ≡ sim_words → S.left src.old ≡ Some bytes → length bytes ≤ input_limit
        → IsReadAs bytes s → (Rose (S.faults src.old) (S.faults src.new) → ⊥) → (Rose (K.faults out.old) (K.faults out.new) → ⊥)
        → ends_with_stop (serial s) ≡ false → (result ≡ Status.TooLong) ⊎ (result ≡ Status.NoMemory) }
    ensures refused { (bytes : List ℕ) (l : ℕ) (w : Cause) → map string_bytes words.now ≡ sim_words → S.left src.old ≡ Some bytes → length bytes ≤ input_limit
        → read_text bytes ≡ Err (l, w)
        → (result ≡ Status.Script l w) ⊎ ((result ≡ Status.NoMemory) ⊎ (result ≡ Status.ReadFault)) }
    ensures no_script { (bytes : List ℕ) → map string_bytes words.now ≡ sim_words → S.left src.old ≡ Some bytes → length bytes ≤ input_limit
        → ((s : AScript) → IsReadAs bytes s → ⊥)
        → ((l : ℕ) × (w : Cause) × (result ≡ Status.Script l w)) ⊎ ((result ≡ Status.NoMemory) ⊎ (result ≡ Status.ReadFault)) }
{
    if !is_sim(words) {
        return Status::Usage;
    }
    run(alloc, src, out)
}
