use crate::{ObjId, TaskId, Tmo};

/// A kernel call with its arguments (µITRON4.0): the requests that are the kernel's, with the same fields.
#[derive(Clone, Copy, Debug, PartialEq, Eq)]
pub enum KReq {
    ActTsk {
        task: TaskId,
    },
    CanAct {
        task: TaskId,
    },
    ExtTsk,
    TerTsk {
        task: TaskId,
    },
    ChgPri {
        task: TaskId,
        pri: u32,
    },
    GetPri {
        task: TaskId,
    },
    TslpTsk {
        tmo: Tmo,
    },
    WupTsk {
        task: TaskId,
    },
    CanWup {
        task: TaskId,
    },
    RelWai {
        task: TaskId,
    },
    SusTsk {
        task: TaskId,
    },
    RsmTsk {
        task: TaskId,
    },
    FrsmTsk {
        task: TaskId,
    },
    DlyTsk {
        ms: u32,
    },
    RotRdq {
        pri: u32,
    },
    GetTid,
    SigSem {
        sem: ObjId,
    },
    TwaiSem {
        sem: ObjId,
        tmo: Tmo,
    },
    SetFlg {
        flg: ObjId,
        bits: u32,
    },
    ClrFlg {
        flg: ObjId,
        bits: u32,
    },
    TwaiFlg {
        flg: ObjId,
        bits: u32,
        all: bool,
        tmo: Tmo,
    },
    TsndDtq {
        dtq: ObjId,
        item: u32,
        tmo: Tmo,
    },
    FsndDtq {
        dtq: ObjId,
        item: u32,
    },
    TrcvDtq {
        dtq: ObjId,
        tmo: Tmo,
    },
    SetTim {
        ms: u64,
    },
    GetTim,
    StaCyc {
        cyc: ObjId,
    },
    StpCyc {
        cyc: ObjId,
    },
}
