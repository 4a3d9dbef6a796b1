ghost use Rattle.std.specs.Prelude.{◌≡◌, ◌++◌, OnOk, codes, decimal};
ghost use Rattle.std.specs.Fmt.{signed_decimal};
ghost use Rattle.it_types.specs.Address.{end_point_text};
ghost use Rattle.it_types.specs.Spelling.{function_text};
ghost use Rattle.spec_trace.specs.Trace.{handler_text, lease_text, mark_text, mark_words, protocol_text, told_text};

use crate::words::{direction_word, protocol_word, put_bytes, put_code};
use it_types::words::{put_end_point, put_number, put_numbered, put_word};
use it_types::{CepId, Dir, EndPt, Er, FnCode, Handler, Mark, NoMemory, ObjId};

// The word, a callback routine, and the end point that it is told of.
fn put_routine(
    out: &mut Vec<u8>,
    word: &[u8],
    cbr: ObjId,
    udp: bool,
    cep: CepId,
) -> Result<(), NoMemory>
    ensures { OnOk result (out.new.items ≡ out.old.items ++ (word.now ++ (decimal cbr.0 ++ (codes " " ++ (protocol_text udp ++ (codes " " ++ decimal cep.0)))))) }
{
    put_numbered(out, word, cbr.0)?;
    put_word(out, b" ")?;
    put_word(out, protocol_word(udp))?;
    put_numbered(out, b" ", cep.0)
}

// The function that a callback routine is told of, and its code.
fn put_function_and_code(out: &mut Vec<u8>, function: FnCode, code: Er) -> Result<(), NoMemory>
    ensures { OnOk result (out.new.items ≡ out.old.items ++ (codes " " ++ (function_text function ++ (codes " " ++ signed_decimal code.0)))) }
{
    put_word(out, b" ")?;
    put_word(out, function.text())?;
    put_code(out, b" ", code)
}

// The word, a callback routine, and what it is told of.
fn put_told(
    out: &mut Vec<u8>,
    word: &[u8],
    cbr: ObjId,
    udp: bool,
    cep: CepId,
    function: FnCode,
    code: Er,
) -> Result<(), NoMemory>
    ensures { OnOk result (out.new.items ≡ out.old.items ++ (word.now ++ told_text cbr udp cep function code)) }
{
    put_routine(out, word, cbr, udp, cep)?;
    put_function_and_code(out, function, code)
}

fn put_handler(out: &mut Vec<u8>, handler: &Handler) -> Result<(), NoMemory>
    ensures { OnOk result (out.new.items ≡ out.old.items ++ handler_text handler.now) }
{
    match handler {
        Handler::Cyc(cyc) => put_numbered(out, b"cyc ", cyc.0),
        Handler::Cbr {
            cbr,
            udp,
            cep,
            func,
            code,
            bytes,
        } => {
            put_told(out, b"cbr ", *cbr, *udp, *cep, *func, *code)?;
            put_bytes(out, bytes.as_slice())
        }
    }
}

fn put_entered(out: &mut Vec<u8>, what: &Handler) -> Result<(), NoMemory>
    ensures { OnOk result (out.new.items ≡ out.old.items ++ (codes " entered " ++ handler_text what.now)) }
{
    put_word(out, b" entered ")?;
    put_handler(out, what)
}

fn put_started(
    out: &mut Vec<u8>,
    cep: CepId,
    mine: EndPt,
    peer: EndPt,
    iss: u32,
) -> Result<(), NoMemory>
    ensures { OnOk result (out.new.items ≡ out.old.items ++ (codes " started " ++ (decimal cep.0 ++ (codes " " ++ (end_point_text mine ++ (codes " " ++ (end_point_text peer ++ (codes " " ++ decimal iss)))))))) }
{
    put_numbered(out, b" started ", cep.0)?;
    put_end_point(out, b" ", mine)?;
    put_end_point(out, b" ", peer)?;
    put_numbered(out, b" ", iss)
}

fn put_opened(out: &mut Vec<u8>, cep: CepId, iss: u32, irs: u32) -> Result<(), NoMemory>
    ensures { OnOk result (out.new.items ≡ out.old.items ++ (codes " opened " ++ (decimal cep.0 ++ (codes " " ++ (decimal iss ++ (codes " " ++ decimal irs)))))) }
{
    put_numbered(out, b" opened ", cep.0)?;
    put_numbered(out, b" ", iss)?;
    put_numbered(out, b" ", irs)
}

fn put_lease(
    out: &mut Vec<u8>,
    word: &[u8],
    cep: CepId,
    direction: Dir,
    from: u64,
    len: u32,
) -> Result<(), NoMemory>
    ensures { OnOk result (out.new.items ≡ out.old.items ++ (word.now ++ lease_text cep.0 direction from len)) }
{
    put_numbered(out, word, cep.0)?;
    put_word(out, b" ")?;
    put_word(out, direction_word(direction))?;
    put_word(out, b" ")?;
    put_number(out, from)?;
    put_numbered(out, b" ", len)
}

fn put_mark_words(out: &mut Vec<u8>, mark: &Mark) -> Result<(), NoMemory>
    ensures { OnOk result (out.new.items ≡ out.old.items ++ mark_words mark.now) }
{
    match mark {
        Mark::Gone { task } => put_numbered(out, b" gone ", task.0),
        Mark::Begun { task } => put_numbered(out, b" begun ", task.0),
        Mark::Entered { what } => put_entered(out, what),
        Mark::Started {
            cep,
            mine,
            peer,
            iss,
        } => put_started(out, *cep, *mine, *peer, *iss),
        Mark::Opened { cep, iss, irs } => put_opened(out, *cep, *iss, *irs),
        Mark::Broken { cep } => put_numbered(out, b" broken ", cep.0),
        Mark::Over { cep } => put_numbered(out, b" over ", cep.0),
        Mark::Lent {
            cep,
            dir,
            from,
            len,
        } => put_lease(out, b" lent ", *cep, *dir, *from, *len),
        Mark::Back {
            cep,
            dir,
            from,
            len,
        } => put_lease(out, b" back ", *cep, *dir, *from, *len),
        Mark::Callback {
            cbr,
            udp,
            cep,
            func,
            code,
        } => put_told(out, b" callback ", *cbr, *udp, *cep, *func, *code),
        Mark::Run { task } => put_numbered(out, b" run ", task.0),
    }
}

/// Appends the line of the mark.
pub fn put_mark(out: &mut Vec<u8>, mark: &Mark) -> Result<(), NoMemory>
    ensures { OnOk result (out.new.items ≡ out.old.items ++ mark_text mark.now) }
{
    put_mark_words(out, mark)?;
    put_word(out, b"\n")
}
