//! The calls by their words: one line for each in the list of words and their text, and in what reads and prints the fields.

ghost use Rattle.std.specs.Prelude.{◌≡◌, ◌++◌, OnOk};
ghost use Rattle.it_types.specs.Requests.{parts_of, word_text};
ghost use Rattle.it_types.specs.Lines.{call_fields_text, request_at, Reads};
ghost use Rattle.it_types.specs.Standings.{standing};

use crate::line::Line;
use crate::spelling::{
    put_count, put_delay, put_destination, put_load, put_mode, put_object, put_point, put_port,
    put_reception, put_task, put_tcp_function, put_time, put_timeout, put_udp_function,
};
use crate::stop::Stop;
use crate::{NoMemory, Req};
use std::alloc::Global;

/// The word with which the line of a call begins.
#[derive(Clone, Copy, Debug, PartialEq, Eq)]
pub enum Word {
    ActTsk,
    CanAct,
    ExtTsk,
    TerTsk,
    ChgPri,
    GetPri,
    TslpTsk,
    WupTsk,
    CanWup,
    RelWai,
    SusTsk,
    RsmTsk,
    FrsmTsk,
    DlyTsk,
    RotRdq,
    GetTid,
    SigSem,
    TwaiSem,
    SetFlg,
    ClrFlg,
    TwaiFlg,
    TsndDtq,
    FsndDtq,
    TrcvDtq,
    SetTim,
    GetTim,
    StaCyc,
    StpCyc,
    TcpCreRep,
    TcpDelRep,
    TcpCreCep,
    TcpDelCep,
    TcpAcpCep,
    TcpConCep,
    TcpShtCep,
    TcpClsCep,
    TcpSndDat,
    TcpRcvDat,
    TcpGetBuf,
    TcpSndBuf,
    TcpRcvBuf,
    TcpRelBuf,
    TcpCanCep,
    UdpCreCep,
    UdpDelCep,
    UdpSndDat,
    UdpRcvDat,
    UdpCanCep,
}

/// The words of all calls.
pub const ALL_WORDS: [Word; 48] = [
    Word::ActTsk,
    Word::CanAct,
    Word::ExtTsk,
    Word::TerTsk,
    Word::ChgPri,
    Word::GetPri,
    Word::TslpTsk,
    Word::WupTsk,
    Word::CanWup,
    Word::RelWai,
    Word::SusTsk,
    Word::RsmTsk,
    Word::FrsmTsk,
    Word::DlyTsk,
    Word::RotRdq,
    Word::GetTid,
    Word::SigSem,
    Word::TwaiSem,
    Word::SetFlg,
    Word::ClrFlg,
    Word::TwaiFlg,
    Word::TsndDtq,
    Word::FsndDtq,
    Word::TrcvDtq,
    Word::SetTim,
    Word::GetTim,
    Word::StaCyc,
    Word::StpCyc,
    Word::TcpCreRep,
    Word::TcpDelRep,
    Word::TcpCreCep,
    Word::TcpDelCep,
    Word::TcpAcpCep,
    Word::TcpConCep,
    Word::TcpShtCep,
    Word::TcpClsCep,
    Word::TcpSndDat,
    Word::TcpRcvDat,
    Word::TcpGetBuf,
    Word::TcpSndBuf,
    Word::TcpRcvBuf,
    Word::TcpRelBuf,
    Word::TcpCanCep,
    Word::UdpCreCep,
    Word::UdpDelCep,
    Word::UdpSndDat,
    Word::UdpRcvDat,
    Word::UdpCanCep,
];

impl Word {
    /// The word as scripts and traces spell it.
    #[tactic(auto, unfolding(crate::specs::Requests::word_text))]
    pub fn text(self) -> &'static [u8]
        ensures { result.now ≡ word_text self }
    {
        match self {
            Word::ActTsk => b"act_tsk",
            Word::CanAct => b"can_act",
            Word::ExtTsk => b"ext_tsk",
            Word::TerTsk => b"ter_tsk",
            Word::ChgPri => b"chg_pri",
            Word::GetPri => b"get_pri",
            Word::TslpTsk => b"tslp_tsk",
            Word::WupTsk => b"wup_tsk",
            Word::CanWup => b"can_wup",
            Word::RelWai => b"rel_wai",
            Word::SusTsk => b"sus_tsk",
            Word::RsmTsk => b"rsm_tsk",
            Word::FrsmTsk => b"frsm_tsk",
            Word::DlyTsk => b"dly_tsk",
            Word::RotRdq => b"rot_rdq",
            Word::GetTid => b"get_tid",
            Word::SigSem => b"sig_sem",
            Word::TwaiSem => b"twai_sem",
            Word::SetFlg => b"set_flg",
            Word::ClrFlg => b"clr_flg",
            Word::TwaiFlg => b"twai_flg",
            Word::TsndDtq => b"tsnd_dtq",
            Word::FsndDtq => b"fsnd_dtq",
            Word::TrcvDtq => b"trcv_dtq",
            Word::SetTim => b"set_tim",
            Word::GetTim => b"get_tim",
            Word::StaCyc => b"sta_cyc",
            Word::StpCyc => b"stp_cyc",
            Word::TcpCreRep => b"tcp_cre_rep",
            Word::TcpDelRep => b"tcp_del_rep",
            Word::TcpCreCep => b"tcp_cre_cep",
            Word::TcpDelCep => b"tcp_del_cep",
            Word::TcpAcpCep => b"tcp_acp_cep",
            Word::TcpConCep => b"tcp_con_cep",
            Word::TcpShtCep => b"tcp_sht_cep",
            Word::TcpClsCep => b"tcp_cls_cep",
            Word::TcpSndDat => b"tcp_snd_dat",
            Word::TcpRcvDat => b"tcp_rcv_dat",
            Word::TcpGetBuf => b"tcp_get_buf",
            Word::TcpSndBuf => b"tcp_snd_buf",
            Word::TcpRcvBuf => b"tcp_rcv_buf",
            Word::TcpRelBuf => b"tcp_rel_buf",
            Word::TcpCanCep => b"tcp_can_cep",
            Word::UdpCreCep => b"udp_cre_cep",
            Word::UdpDelCep => b"udp_del_cep",
            Word::UdpSndDat => b"udp_snd_dat",
            Word::UdpRcvDat => b"udp_rcv_dat",
            Word::UdpCanCep => b"udp_can_cep",
        }
    }
}

impl Line<'_> {
    /// The fields of the call with this word.
    #[tactic(auto, unfolding(crate::specs::Cursor::and_then, crate::specs::Fields::fields_at))]
    pub(crate) fn request(&mut self, alloc: Global, word: Word) -> Result<Req, Stop>
        ensures { Reads (request_at word (standing self.old)) result (standing self.new) }
    {
        match word {
            Word::ActTsk => Ok(Req::ActTsk { task: self.task()? }),
            Word::CanAct => Ok(Req::CanAct { task: self.task()? }),
            Word::ExtTsk => Ok(Req::ExtTsk),
            Word::TerTsk => Ok(Req::TerTsk { task: self.task()? }),
            Word::ChgPri => Ok(Req::ChgPri {
                task: self.task()?,
                pri: self.number()?,
            }),
            Word::GetPri => Ok(Req::GetPri { task: self.task()? }),
            Word::TslpTsk => Ok(Req::TslpTsk {
                tmo: self.timeout()?,
            }),
            Word::WupTsk => Ok(Req::WupTsk { task: self.task()? }),
            Word::CanWup => Ok(Req::CanWup { task: self.task()? }),
            Word::RelWai => Ok(Req::RelWai { task: self.task()? }),
            Word::SusTsk => Ok(Req::SusTsk { task: self.task()? }),
            Word::RsmTsk => Ok(Req::RsmTsk { task: self.task()? }),
            Word::FrsmTsk => Ok(Req::FrsmTsk { task: self.task()? }),
            Word::DlyTsk => Ok(Req::DlyTsk { ms: self.delay()? }),
            Word::RotRdq => Ok(Req::RotRdq {
                pri: self.number()?,
            }),
            Word::GetTid => Ok(Req::GetTid),
            Word::SigSem => Ok(Req::SigSem {
                sem: self.object()?,
            }),
            Word::TwaiSem => Ok(Req::TwaiSem {
                sem: self.object()?,
                tmo: self.timeout()?,
            }),
            Word::SetFlg => Ok(Req::SetFlg {
                flg: self.object()?,
                bits: self.number()?,
            }),
            Word::ClrFlg => Ok(Req::ClrFlg {
                flg: self.object()?,
                bits: self.number()?,
            }),
            Word::TwaiFlg => Ok(Req::TwaiFlg {
                flg: self.object()?,
                bits: self.number()?,
                all: self.mode()?,
                tmo: self.timeout()?,
            }),
            Word::TsndDtq => Ok(Req::TsndDtq {
                dtq: self.object()?,
                item: self.number()?,
                tmo: self.timeout()?,
            }),
            Word::FsndDtq => Ok(Req::FsndDtq {
                dtq: self.object()?,
                item: self.number()?,
            }),
            Word::TrcvDtq => Ok(Req::TrcvDtq {
                dtq: self.object()?,
                tmo: self.timeout()?,
            }),
            Word::SetTim => Ok(Req::SetTim { ms: self.time()? }),
            Word::GetTim => Ok(Req::GetTim),
            Word::StaCyc => Ok(Req::StaCyc {
                cyc: self.object()?,
            }),
            Word::StpCyc => Ok(Req::StpCyc {
                cyc: self.object()?,
            }),
            Word::TcpCreRep => Ok(Req::TcpCreRep {
                rep: self.reception()?,
                port: self.port()?,
            }),
            Word::TcpDelRep => Ok(Req::TcpDelRep {
                rep: self.reception()?,
            }),
            Word::TcpCreCep => Ok(Req::TcpCreCep {
                cep: self.point()?,
                send: self.number()?,
                recv: self.number()?,
                cbr: self.object()?,
            }),
            Word::TcpDelCep => Ok(Req::TcpDelCep { cep: self.point()? }),
            Word::TcpAcpCep => Ok(Req::TcpAcpCep {
                cep: self.point()?,
                rep: self.reception()?,
                tmo: self.timeout()?,
            }),
            Word::TcpConCep => Ok(Req::TcpConCep {
                cep: self.point()?,
                port: self.port()?,
                dest: self.destination()?,
                tmo: self.timeout()?,
            }),
            Word::TcpShtCep => Ok(Req::TcpShtCep { cep: self.point()? }),
            Word::TcpClsCep => Ok(Req::TcpClsCep {
                cep: self.point()?,
                tmo: self.timeout()?,
            }),
            Word::TcpSndDat => Ok(Req::TcpSndDat {
                cep: self.point()?,
                load: self.load(alloc)?,
                tmo: self.timeout()?,
            }),
            Word::TcpRcvDat => Ok(Req::TcpRcvDat {
                cep: self.point()?,
                len: self.number()?,
                tmo: self.timeout()?,
            }),
            Word::TcpGetBuf => Ok(Req::TcpGetBuf {
                cep: self.point()?,
                tmo: self.timeout()?,
            }),
            Word::TcpSndBuf => Ok(Req::TcpSndBuf {
                cep: self.point()?,
                load: self.load(alloc)?,
            }),
            Word::TcpRcvBuf => Ok(Req::TcpRcvBuf {
                cep: self.point()?,
                tmo: self.timeout()?,
            }),
            Word::TcpRelBuf => Ok(Req::TcpRelBuf {
                cep: self.point()?,
                len: self.number()?,
            }),
            Word::TcpCanCep => Ok(Req::TcpCanCep {
                cep: self.point()?,
                func: self.tcp_function()?,
            }),
            Word::UdpCreCep => Ok(Req::UdpCreCep {
                cep: self.point()?,
                port: self.port()?,
                cbr: self.object()?,
            }),
            Word::UdpDelCep => Ok(Req::UdpDelCep { cep: self.point()? }),
            Word::UdpSndDat => Ok(Req::UdpSndDat {
                cep: self.point()?,
                dest: self.destination()?,
                load: self.load(alloc)?,
                tmo: self.timeout()?,
            }),
            Word::UdpRcvDat => Ok(Req::UdpRcvDat {
                cep: self.point()?,
                len: self.number()?,
                tmo: self.timeout()?,
            }),
            Word::UdpCanCep => Ok(Req::UdpCanCep {
                cep: self.point()?,
                func: self.udp_function()?,
            }),
        }
    }
}

/// Appends the fields of the request, each after a space.
#[tactic(auto, using(crate::proofs::Texts::no_more))]
pub(crate) fn put_fields(out: &mut Vec<u8>, request: &Req) -> Result<(), NoMemory>
    ensures { OnOk result (out.new.items ≡ out.old.items ++ call_fields_text (parts_of request.now)) }
{
    match request {
        Req::ActTsk { task } => put_task(out, *task),
        Req::CanAct { task } => put_task(out, *task),
        Req::ExtTsk => Ok(()),
        Req::TerTsk { task } => put_task(out, *task),
        Req::ChgPri { task, pri } => {
            put_task(out, *task)?;
            put_count(out, *pri)
        }
        Req::GetPri { task } => put_task(out, *task),
        Req::TslpTsk { tmo } => put_timeout(out, *tmo),
        Req::WupTsk { task } => put_task(out, *task),
        Req::CanWup { task } => put_task(out, *task),
        Req::RelWai { task } => put_task(out, *task),
        Req::SusTsk { task } => put_task(out, *task),
        Req::RsmTsk { task } => put_task(out, *task),
        Req::FrsmTsk { task } => put_task(out, *task),
        Req::DlyTsk { ms } => put_delay(out, *ms),
        Req::RotRdq { pri } => put_count(out, *pri),
        Req::GetTid => Ok(()),
        Req::SigSem { sem } => put_object(out, *sem),
        Req::TwaiSem { sem, tmo } => {
            put_object(out, *sem)?;
            put_timeout(out, *tmo)
        }
        Req::SetFlg { flg, bits } => {
            put_object(out, *flg)?;
            put_count(out, *bits)
        }
        Req::ClrFlg { flg, bits } => {
            put_object(out, *flg)?;
            put_count(out, *bits)
        }
        Req::TwaiFlg {
            flg,
            bits,
            all,
            tmo,
        } => {
            put_object(out, *flg)?;
            put_count(out, *bits)?;
            put_mode(out, *all)?;
            put_timeout(out, *tmo)
        }
        Req::TsndDtq { dtq, item, tmo } => {
            put_object(out, *dtq)?;
            put_count(out, *item)?;
            put_timeout(out, *tmo)
        }
        Req::FsndDtq { dtq, item } => {
            put_object(out, *dtq)?;
            put_count(out, *item)
        }
        Req::TrcvDtq { dtq, tmo } => {
            put_object(out, *dtq)?;
            put_timeout(out, *tmo)
        }
        Req::SetTim { ms } => put_time(out, *ms),
        Req::GetTim => Ok(()),
        Req::StaCyc { cyc } => put_object(out, *cyc),
        Req::StpCyc { cyc } => put_object(out, *cyc),
        Req::TcpCreRep { rep, port } => {
            put_reception(out, *rep)?;
            put_port(out, *port)
        }
        Req::TcpDelRep { rep } => put_reception(out, *rep),
        Req::TcpCreCep {
            cep,
            send,
            recv,
            cbr,
        } => {
            put_point(out, *cep)?;
            put_count(out, *send)?;
            put_count(out, *recv)?;
            put_object(out, *cbr)
        }
        Req::TcpDelCep { cep } => put_point(out, *cep),
        Req::TcpAcpCep { cep, rep, tmo } => {
            put_point(out, *cep)?;
            put_reception(out, *rep)?;
            put_timeout(out, *tmo)
        }
        Req::TcpConCep {
            cep,
            port,
            dest,
            tmo,
        } => {
            put_point(out, *cep)?;
            put_port(out, *port)?;
            put_destination(out, *dest)?;
            put_timeout(out, *tmo)
        }
        Req::TcpShtCep { cep } => put_point(out, *cep),
        Req::TcpClsCep { cep, tmo } => {
            put_point(out, *cep)?;
            put_timeout(out, *tmo)
        }
        Req::TcpSndDat { cep, load, tmo } => {
            put_point(out, *cep)?;
            put_load(out, load)?;
            put_timeout(out, *tmo)
        }
        Req::TcpRcvDat { cep, len, tmo } => {
            put_point(out, *cep)?;
            put_count(out, *len)?;
            put_timeout(out, *tmo)
        }
        Req::TcpGetBuf { cep, tmo } => {
            put_point(out, *cep)?;
            put_timeout(out, *tmo)
        }
        Req::TcpSndBuf { cep, load } => {
            put_point(out, *cep)?;
            put_load(out, load)
        }
        Req::TcpRcvBuf { cep, tmo } => {
            put_point(out, *cep)?;
            put_timeout(out, *tmo)
        }
        Req::TcpRelBuf { cep, len } => {
            put_point(out, *cep)?;
            put_count(out, *len)
        }
        Req::TcpCanCep { cep, func } => {
            put_point(out, *cep)?;
            put_tcp_function(out, *func)
        }
        Req::UdpCreCep { cep, port, cbr } => {
            put_point(out, *cep)?;
            put_port(out, *port)?;
            put_object(out, *cbr)
        }
        Req::UdpDelCep { cep } => put_point(out, *cep),
        Req::UdpSndDat {
            cep,
            dest,
            load,
            tmo,
        } => {
            put_point(out, *cep)?;
            put_destination(out, *dest)?;
            put_load(out, load)?;
            put_timeout(out, *tmo)
        }
        Req::UdpRcvDat { cep, len, tmo } => {
            put_point(out, *cep)?;
            put_count(out, *len)?;
            put_timeout(out, *tmo)
        }
        Req::UdpCanCep { cep, func } => {
            put_point(out, *cep)?;
            put_udp_function(out, *func)
        }
    }
}
