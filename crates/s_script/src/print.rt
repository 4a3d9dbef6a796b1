ghost use Rattle.std.specs.Prelude.{◌≡◌, false, [], ◌∷◌, ◌++◌, OnOk, OnErr, map, decimal};
ghost use Rattle.std.specs.List.{flat_map};
ghost use Rattle.it_types.specs.Kinds.{Point, Timeout};
ghost use Rattle.it_types.specs.Fields.{field_text};
ghost use Rattle.spec_script.specs.Lines.{choice_text, order_text, field, data_field, destination_field, call_text, ended, spelled, node_text, link_line, body_line, declaration_lines, first_node, second_node, head_lines, node_line, script_text};

use it_types::words::{put_address, put_end_point, put_hex, put_number, put_numbered, put_word};
use it_types::{
    Bytes, CepId, CycDecl, DtqDecl, EndPt, FlgDecl, NoMemory, ObjId, Req, SemDecl, TaskDecl, Tmo,
    spell_into,
};
use spec_script::{Body, Decl, Line, NodeDecl, Script, ScriptLine};
use std::alloc::Global;

fn put_field(out: &mut Vec<u8>, number: u64) -> Result<(), NoMemory>
    ensures { OnOk result (out.new.items ≡ out.old.items ++ field (decimal number)) }
{
    put_word(out, b" ")?;
    put_number(out, number)
}

fn put_link(out: &mut Vec<u8>, link: [u64; 4]) -> Result<(), NoMemory>
    ensures { OnOk result (out.new.items ≡ out.old.items ++ spelled (link_line link)) }
{
    put_word(out, b"link")?;
    put_field(out, link[0])?;
    put_field(out, link[1])?;
    put_field(out, link[2])?;
    put_field(out, link[3])?;
    put_word(out, b"\n")
}

fn put_ticks(out: &mut Vec<u8>, ticks: u32) -> Result<(), NoMemory>
    ensures { OnOk result (out.new.items ≡ out.old.items ++ spelled (ScriptLine.Ticks (Some ticks))) }
{
    put_numbered(out, b"ticks ", ticks)?;
    put_word(out, b"\n")
}

fn put_node(out: &mut Vec<u8>, node: &NodeDecl) -> Result<(), NoMemory>
    ensures { OnOk result (out.new.items ≡ out.old.items ++ ended (node_text (node_line node.now))) }
{
    put_address(out, node.addr)?;
    put_numbered(out, b" ", node.isn0)?;
    put_word(out, b" ")?;
    put_number(out, node.top0)?;
    put_word(out, b"\n")
}

fn put_first_node(out: &mut Vec<u8>, node: &NodeDecl) -> Result<(), NoMemory>
    ensures { OnOk result (out.new.items ≡ out.old.items ++ spelled (ScriptLine.FirstNode (node_line node.now))) }
{
    put_word(out, b"node 0 ")?;
    put_node(out, node)
}

fn put_second_node(out: &mut Vec<u8>, node: &NodeDecl) -> Result<(), NoMemory>
    ensures { OnOk result (out.new.items ≡ out.old.items ++ spelled (ScriptLine.SecondNode (node_line node.now))) }
{
    put_word(out, b"node 1 ")?;
    put_node(out, node)
}

fn put_choice(out: &mut Vec<u8>, one: &[u8], other: &[u8], holds: bool) -> Result<(), NoMemory>
    ensures { OnOk result (out.new.items ≡ out.old.items ++ field (choice_text one.now other.now holds)) }
{
    put_word(out, b" ")?;
    put_word(out, if holds { one } else { other })
}

fn put_order(out: &mut Vec<u8>, pri: bool) -> Result<(), NoMemory>
    ensures { OnOk result (out.new.items ≡ out.old.items ++ field (order_text pri)) }
{
    put_choice(out, b"pri", b"fifo", pri)
}

fn put_sem(out: &mut Vec<u8>, sem: SemDecl) -> Result<(), NoMemory>
    ensures { OnOk result (out.new.items ≡ out.old.items ++ spelled (ScriptLine.Sem (Some sem.id) sem.pri (Some sem.init) (Some sem.max))) }
{
    put_numbered(out, b"sem ", sem.id)?;
    put_order(out, sem.pri)?;
    put_numbered(out, b" ", sem.init)?;
    put_numbered(out, b" ", sem.max)?;
    put_word(out, b"\n")
}

fn put_flag(out: &mut Vec<u8>, flag: FlgDecl) -> Result<(), NoMemory>
    ensures { OnOk result (out.new.items ≡ out.old.items ++ spelled (ScriptLine.Flg (Some flag.id) flag.pri flag.many flag.clr (Some flag.init))) }
{
    put_numbered(out, b"flg ", flag.id)?;
    put_order(out, flag.pri)?;
    put_choice(out, b"many", b"one", flag.many)?;
    put_choice(out, b"clr", b"keep", flag.clr)?;
    put_numbered(out, b" ", flag.init)?;
    put_word(out, b"\n")
}

fn put_queue(out: &mut Vec<u8>, queue: DtqDecl) -> Result<(), NoMemory>
    ensures { OnOk result (out.new.items ≡ out.old.items ++ spelled (ScriptLine.Dtq (Some queue.id) queue.pri (Some queue.cap))) }
{
    put_numbered(out, b"dtq ", queue.id)?;
    put_order(out, queue.pri)?;
    put_numbered(out, b" ", queue.cap)?;
    put_word(out, b"\n")
}

fn put_task(out: &mut Vec<u8>, task: TaskDecl) -> Result<(), NoMemory>
    ensures { OnOk result (out.new.items ≡ out.old.items ++ spelled (ScriptLine.Task (Some task.id) (Some task.pri) task.act)) }
{
    put_numbered(out, b"task ", task.id)?;
    put_numbered(out, b" ", task.pri)?;
    put_choice(out, b"act", b"dor", task.act)?;
    put_word(out, b"\n")
}

fn put_cyclic(out: &mut Vec<u8>, cyc: CycDecl) -> Result<(), NoMemory>
    ensures { OnOk result (out.new.items ≡ out.old.items ++ spelled (ScriptLine.Cyc (Some cyc.id) (Some cyc.period) (Some cyc.phase) cyc.on)) }
{
    put_numbered(out, b"cyc ", cyc.id)?;
    put_numbered(out, b" ", cyc.period)?;
    put_numbered(out, b" ", cyc.phase)?;
    put_choice(out, b"on", b"off", cyc.on)?;
    put_word(out, b"\n")
}

fn put_routine(out: &mut Vec<u8>, cbr: ObjId) -> Result<(), NoMemory>
    ensures { OnOk result (out.new.items ≡ out.old.items ++ spelled (ScriptLine.Cbr (Some cbr.0))) }
{
    put_numbered(out, b"cbr ", cbr.0)?;
    put_word(out, b"\n")
}

#[tactic(auto, unfolding(it_types::specs::Fields::field_text))]
fn put_data(out: &mut Vec<u8>, buf: bool, load: &Bytes) -> Result<(), NoMemory>
    ensures { OnOk result (out.new.items ≡ out.old.items ++ data_field buf load.now) }
{
    if buf {
        return put_word(out, b" buf");
    }
    put_word(out, b" x")?;
    put_hex(out, load.as_slice())
}

#[tactic(auto, unfolding(it_types::specs::Fields::field_text))]
fn put_destination(out: &mut Vec<u8>, peer: bool, dest: EndPt) -> Result<(), NoMemory>
    ensures { OnOk result (out.new.items ≡ out.old.items ++ destination_field peer dest) }
{
    if peer {
        put_word(out, b" peer")
    } else {
        put_end_point(out, b" ", dest)
    }
}

#[tactic(auto, unfolding(it_types::specs::Fields::field_text))]
fn put_timeout(out: &mut Vec<u8>, tmo: Tmo) -> Result<(), NoMemory>
    ensures { OnOk result (out.new.items ≡ out.old.items ++ field_text Timeout tmo) }
{
    match tmo {
        Tmo::Pol => put_word(out, b" pol"),
        Tmo::Nblk => put_word(out, b" nblk"),
        Tmo::Fevr => put_word(out, b" fevr"),
        Tmo::Ms(ticks) => put_numbered(out, b" ", ticks),
    }
}

/// Appends the data and the time-out.
fn put_payload(out: &mut Vec<u8>, buf: bool, load: &Bytes, tmo: Tmo) -> Result<(), NoMemory>
    ensures { OnOk result (out.new.items ≡ out.old.items ++ (data_field buf load.now ++ field_text Timeout tmo)) }
{
    put_data(out, buf, load)?;
    put_timeout(out, tmo)
}

/// Appends the word and the end point.
#[tactic(auto, unfolding(it_types::specs::Fields::field_text))]
fn put_point(out: &mut Vec<u8>, word: &[u8], cep: CepId) -> Result<(), NoMemory>
    ensures { OnOk result (out.new.items ≡ out.old.items ++ (word.now ++ field_text Point cep)) }
{
    put_word(out, word)?;
    put_numbered(out, b" ", cep.0)
}

#[tactic(auto, unfolding(it_types::specs::Requests::word_text))]
fn put_send(
    out: &mut Vec<u8>,
    cep: CepId,
    load: &Bytes,
    tmo: Tmo,
    buf: bool,
) -> Result<(), NoMemory>
    ensures { OnOk result (out.new.items ≡ out.old.items ++ call_text (Req.TcpSndDat cep load.now tmo) buf false) }
{
    put_point(out, b"tcp_snd_dat", cep)?;
    put_payload(out, buf, load, tmo)
}

fn put_hand_over(out: &mut Vec<u8>, cep: CepId, load: &Bytes, buf: bool) -> Result<(), NoMemory>
    ensures { OnOk result (out.new.items ≡ out.old.items ++ call_text (Req.TcpSndBuf cep load.now) buf false) }
{
    put_point(out, b"tcp_snd_buf", cep)?;
    put_data(out, buf, load)
}

/// Appends the word, the end point and the destination.
fn put_target(
    out: &mut Vec<u8>,
    word: &[u8],
    cep: CepId,
    dest: EndPt,
    peer: bool,
) -> Result<(), NoMemory>
    ensures { OnOk result (out.new.items ≡ out.old.items ++ (word.now ++ (field_text Point cep ++ destination_field peer dest))) }
{
    put_point(out, word, cep)?;
    put_destination(out, peer, dest)
}

fn put_datagram(
    out: &mut Vec<u8>,
    cep: CepId,
    dest: EndPt,
    load: &Bytes,
    tmo: Tmo,
    buf: bool,
    peer: bool,
) -> Result<(), NoMemory>
    ensures { OnOk result (out.new.items ≡ out.old.items ++ call_text (Req.UdpSndDat cep dest load.now tmo) buf peer) }
{
    put_target(out, b"udp_snd_dat", cep, dest, peer)?;
    put_payload(out, buf, load, tmo)
}

fn put_call(
    alloc: Global,
    out: &mut Vec<u8>,
    req: &Req,
    buf: bool,
    peer: bool,
) -> Result<(), NoMemory>
    ensures { OnOk result (out.new.items ≡ out.old.items ++ call_text req.now buf peer) }
{
    match req {
        Req::TcpSndDat { cep, load, tmo } => put_send(out, *cep, load, *tmo, buf),
        Req::TcpSndBuf { cep, load } => put_hand_over(out, *cep, load, buf),
        Req::UdpSndDat {
            cep,
            dest,
            load,
            tmo,
        } => put_datagram(out, *cep, *dest, load, *tmo, buf, peer),
        _ => spell_into(alloc, req, out),
    }
}

fn put_body_line(alloc: Global, out: &mut Vec<u8>, line: &Line) -> Result<(), NoMemory>
    ensures { OnOk result (out.new.items ≡ out.old.items ++ spelled (body_line line.now)) }
{
    match line {
        Line::Call { req, buf, peer } => put_call(alloc, out, req, *buf, *peer)?,
        Line::Fill(bytes) => put_numbered(out, b"fill ", *bytes)?,
        Line::Loop(rounds) => put_numbered(out, b"loop ", *rounds)?,
        Line::Pool => put_word(out, b"pool")?,
        Line::UntilEnd => put_word(out, b"until end")?,
        Line::UntilFail => put_word(out, b"until fail")?,
        Line::UntilEmpty => put_word(out, b"until empty")?,
    }
    put_word(out, b"\n")
}

fn put_body_lines(alloc: Global, out: &mut Vec<u8>, body: &Body) -> Result<(), NoMemory>
    ensures { OnOk result (out.new.items ≡ out.old.items ++ flat_map spelled (map body_line body.now.lines)) }
{
    for line in body.lines.as_slice() {
        put_body_line(alloc, out, line)?;
    }
    Ok(())
}

/// Appends the lines of the body and its end.
fn put_body(alloc: Global, out: &mut Vec<u8>, body: &Body) -> Result<(), NoMemory>
    ensures { OnOk result (out.new.items ≡ out.old.items ++ flat_map spelled (map body_line body.now.lines ++ ScriptLine.End ∷ [])) }
{
    put_body_lines(alloc, out, body)?;
    put_word(out, b"end\n")
}

fn put_declaration(alloc: Global, out: &mut Vec<u8>, decl: &Decl) -> Result<(), NoMemory>
    ensures { OnOk result (out.new.items ≡ out.old.items ++ flat_map spelled (declaration_lines decl.now)) }
{
    match decl {
        Decl::Task(task, body) => {
            put_task(out, *task)?;
            put_body(alloc, out, body)
        }
        Decl::Sem(sem) => put_sem(out, *sem),
        Decl::Flg(flag) => put_flag(out, *flag),
        Decl::Dtq(queue) => put_queue(out, *queue),
        Decl::Cyc(cyc, body) => {
            put_cyclic(out, *cyc)?;
            put_body(alloc, out, body)
        }
        Decl::Cbr(cbr, body) => {
            put_routine(out, *cbr)?;
            put_body(alloc, out, body)
        }
    }
}

fn put_declarations(alloc: Global, out: &mut Vec<u8>, decls: &[Decl]) -> Result<(), NoMemory>
    ensures { OnOk result (out.new.items ≡ out.old.items ++ flat_map spelled (flat_map declaration_lines decls.now)) }
{
    for decl in decls {
        put_declaration(alloc, out, decl)?;
    }
    Ok(())
}

fn first_node(s: &Script) -> &NodeDecl
    ensures { result.now ≡ first_node s.now }
{
    &s.nodes[0]
}

fn second_node(s: &Script) -> &NodeDecl
    ensures { result.now ≡ second_node s.now }
{
    &s.nodes[1]
}

fn put_head(out: &mut Vec<u8>, s: &Script) -> Result<(), NoMemory>
    ensures { OnOk result (out.new.items ≡ out.old.items ++ flat_map spelled (head_lines s.now)) }
{
    put_word(out, b"itron 1\n")?;
    put_link(out, s.link)?;
    put_ticks(out, s.ticks)?;
    put_first_node(out, first_node(s))
}

fn put_last_lines(alloc: Global, out: &mut Vec<u8>, node: &NodeDecl) -> Result<(), NoMemory>
    ensures { OnOk result (out.new.items ≡ out.old.items ++ flat_map spelled (ScriptLine.SecondNode (node_line node.now) ∷ flat_map declaration_lines node.now.decls)) }
{
    put_second_node(out, node)?;
    put_declarations(alloc, out, node.decls.as_slice())
}

fn put_script(alloc: Global, out: &mut Vec<u8>, s: &Script) -> Result<(), NoMemory>
    ensures { OnOk result (out.new.items ≡ out.old.items ++ script_text s.now) }
{
    put_head(out, s)?;
    put_declarations(alloc, out, first_node(s).decls.as_slice())?;
    put_last_lines(alloc, out, second_node(s))
}

/// Appends the printed form of the script; without memory `out` stays as it was.
pub fn print_into(alloc: Global, s: &Script, out: &mut Vec<u8>) -> Result<(), NoMemory>
    ensures ok { OnOk result (out.new.items ≡ out.old.items ++ script_text s.now) }
    ensures err { OnErr result (out.new.items ≡ out.old.items) }
{
    let mut text = Vec::new(alloc);
    put_script(alloc, &mut text, s)?;
    Ok(out.extend_from_slice(&text)?)
}
