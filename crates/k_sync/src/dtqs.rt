ghost use Rattle.std.specs.Prelude.{◌≡◌, IfOk};
ghost use Rattle.spec_kernel.specs.PlainQueues.{AreDeclarable, opened};

use crate::queue::Queue;
use crate::queues::{MAX_QUEUES, queue_table};
use crate::waiters::MAX_WAITERS;
use arrayvec::ArrayVec;
use it_types::{NoMemory, SyncConf, Table};
use spec_kernel::{Handed, Waiter};
use std::alloc::Global;
use std::marker::Model;

/// The data queues of a kernel (µITRON4.0 section 4.4.3), and the tasks that wait at them in the order of their ranks. After the
/// opening they take no memory.
#[derive(Debug, Drop)]
pub struct Dtqs {
    pub(crate) queues: Table<Queue, MAX_QUEUES>,
    pub(crate) waiters: ArrayVec<Waiter, MAX_WAITERS>,
    pub(crate) handed: Option<Handed>,
}

impl Model for Dtqs {
    ghost use Rattle.spec_kernel.specs.PlainQueues.{PlainQueues};
    ghost use Rattle.k_sync.specs.KeptQueues.{AreKept};

    ghost Value = { PlainQueues };

    ghost view = { λ d. record { queues = d.queues; waiters = d.waiters.items; handed = d.handed } };

    ghost invariant = { λ d. AreKept d.waiters.items };
}

impl Dtqs {
    /// The declared data queues, empty and with nobody waiting.
    pub fn open(alloc: Global, conf: &SyncConf) -> Result<Dtqs, NoMemory>
        requires { AreDeclarable conf.now.dtqs }
        ensures { IfOk result (λ d. d ≡ opened conf.now) }
    {
        let queues = queue_table(alloc, conf.dtqs.as_slice())?;
        Ok(Dtqs {
            queues,
            waiters: ArrayVec::new(),
            handed: None,
        })
    }
}
