//! The plain data of the ITRON TCP/IP stack: return codes, numbers of objects, requests, events and entries of a history.
#![tactic(auto)]

mod answer;
mod bytes;
mod calls;
mod conf;
mod context;
pub mod cursor;
pub mod data;
mod entry;
mod er;
mod event;
mod handler;
mod id;
mod kernel_request;
mod kinds;
mod line;
mod list;
mod mark;
mod no_memory;
mod node_conf;
pub mod numbers;
pub mod reading;
mod refusing;
mod request;
mod small;
mod spelling;
mod stop;
mod synced;
mod table;
mod timeout;
pub mod words;

pub use answer::Ans;
pub use bytes::Bytes;
pub use calls::{ALL_WORDS, Word};
pub use conf::{CycConf, CycDecl, DtqDecl, FlgDecl, KConf, SemDecl, SyncConf, TaskConf, TaskDecl};
pub use context::Ctx;
pub use entry::{CallEnd, Entry, Out};
pub use er::{
    E_BOVR, E_CLS, E_CTX, E_DLT, E_ID, E_ILUSE, E_NOEXS, E_NOMEM, E_NOSPT, E_OBJ, E_OK, E_PAR,
    E_QOVR, E_RLWAI, E_RSATR, E_SYS, E_TMOUT, E_WBLK, Er, code_numbers,
};
pub use event::Event;
pub use handler::{FnCode, Handler, TCP_FUNCTIONS, UDP_FUNCTIONS};
pub use id::{
    CallNo, CepId, EndPt, GREATEST_ID, NodeId, ObjId, PackNo, RepId, TABLE_PLACES, TaskId,
};
pub use kernel_request::KReq;
pub use list::List;
pub use mark::{Dir, Mark};
pub use no_memory::NoMemory;
pub use node_conf::{Conf, NodeConf};
pub use reading::read_call;
pub use request::Req;
pub use small::Small;
pub use spelling::spell_into;
pub use synced::Synced;
pub use table::{PutErr, Table};
pub use timeout::Tmo;
