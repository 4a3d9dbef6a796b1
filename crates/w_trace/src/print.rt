ghost use Rattle.std.specs.Prelude.{◌≡◌, ◌++◌, OnOk, OnErr, codes};
ghost use Rattle.std.specs.List.{flat_map};
ghost use Rattle.spec_trace.specs.Trace.{answer_text, end_text, entry_text, event_text, mark_text, pack_text, trace_text};

use crate::event::{put_answer, put_event};
use crate::mark::put_mark;
use crate::words::put_result;
use it_types::words::{put_hex, put_numbered, put_word};
use it_types::{Ans, Bytes, CallEnd, Entry, Event, Mark, NoMemory};
use std::alloc::Global;

fn put_first_line(
    alloc: Global,
    out: &mut Vec<u8>,
    event: &Event,
    answer: &Ans,
) -> Result<(), NoMemory>
    ensures { OnOk result (out.new.items ≡ out.old.items ++ (event_text event.now ++ (answer_text answer.now ++ codes "\n"))) }
{
    put_event(alloc, out, event)?;
    put_answer(out, answer)?;
    put_word(out, b"\n")
}

fn put_end(out: &mut Vec<u8>, end: &CallEnd) -> Result<(), NoMemory>
    ensures { OnOk result (out.new.items ≡ out.old.items ++ end_text end.now) }
{
    put_numbered(out, b" end ", end.call.0)?;
    put_result(out, b" ", end.code, end.bytes.as_slice())?;
    put_word(out, b"\n")
}

fn put_ends(out: &mut Vec<u8>, ends: &[CallEnd]) -> Result<(), NoMemory>
    ensures { OnOk result (out.new.items ≡ out.old.items ++ flat_map end_text ends.now) }
{
    for end in ends {
        put_end(out, end)?;
    }
    Ok(())
}

fn put_marks(out: &mut Vec<u8>, marks: &[Mark]) -> Result<(), NoMemory>
    ensures { OnOk result (out.new.items ≡ out.old.items ++ flat_map mark_text marks.now) }
{
    for mark in marks {
        put_mark(out, mark)?;
    }
    Ok(())
}

fn put_pack(out: &mut Vec<u8>, pack: &[u8]) -> Result<(), NoMemory>
    ensures { OnOk result (out.new.items ≡ out.old.items ++ pack_text pack.now) }
{
    put_word(out, b" pack x")?;
    put_hex(out, pack)?;
    put_word(out, b"\n")
}

fn put_packs(out: &mut Vec<u8>, packs: &[Bytes]) -> Result<(), NoMemory>
    ensures { OnOk result (out.new.items ≡ out.old.items ++ flat_map pack_text packs.now) }
{
    for pack in packs {
        put_pack(out, pack.as_slice())?;
    }
    Ok(())
}

fn put_entry(alloc: Global, out: &mut Vec<u8>, entry: &Entry) -> Result<(), NoMemory>
    ensures { OnOk result (out.new.items ≡ out.old.items ++ entry_text entry.now) }
{
    put_first_line(alloc, out, &entry.ev, &entry.ans)?;
    put_ends(out, entry.ends.as_slice())?;
    put_marks(out, entry.marks.as_slice())?;
    put_packs(out, entry.packs.as_slice())
}

fn put_entries(alloc: Global, out: &mut Vec<u8>, entries: &[Entry]) -> Result<(), NoMemory>
    ensures { OnOk result (out.new.items ≡ out.old.items ++ trace_text entries.now) }
{
    for entry in entries {
        put_entry(alloc, out, entry)?;
    }
    Ok(())
}

/// Appends the text of the entries, in time linear in its length; without memory `out` stays as it was.
pub fn print_into(alloc: Global, log: &[Entry], out: &mut Vec<u8>) -> Result<(), NoMemory>
    ensures ok { OnOk result (out.new.items ≡ out.old.items ++ trace_text log.now) }
    ensures err { OnErr result (out.new.items ≡ out.old.items) }
{
    let mut text = Vec::new(alloc);
    put_entries(alloc, &mut text, log)?;
    out.extend_from_slice(&text)?;
    Ok(())
}
