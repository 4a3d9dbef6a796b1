ghost use Rattle.std.specs.Prelude.{◌≡◌, ◌↔◌, IfOk, IsTrue};
ghost use Rattle.spec_kernel.specs.Opening.{IsDeclarable, opened};

use crate::declarable::is_declarable;
use crate::kernel::Kernel;
use crate::parts::Parts;
use arrayvec::ArrayVec;
use it_types::{CallNo, KConf, NoMemory};
use k_sync::{Dtqs, Flags, Sems};
use k_task::Tasks;
use k_time::Clock;
use std::alloc::Global;

impl Kernel {
    /// Whether a kernel can be opened with these declarations: `is_declarable` of all of them.
    pub fn can_open(conf: &KConf) -> bool
        ensures { IsTrue result ↔ IsDeclarable conf.now }
    {
        is_declarable(
            conf.tasks.tasks.as_slice(),
            conf.sync.sems.as_slice(),
            conf.sync.flags.as_slice(),
            conf.sync.dtqs.as_slice(),
            conf.cycs.cycs.as_slice(),
        )
    }

    /// The kernel of a node with these declarations, at tick 0 with its active tasks runnable in the order of their declarations.
    pub fn open(alloc: Global, conf: &KConf) -> Result<Kernel, NoMemory>
        requires { IsDeclarable conf.now }
        ensures { IfOk result (λ k. k ≡ opened conf.now) }
    {
        let clock = Clock::open(alloc, &conf.cycs)?;
        let tasks = Tasks::open(alloc, &conf.tasks)?;
        let sems = Sems::open(alloc, &conf.sync)?;
        let flags = Flags::open(alloc, &conf.sync)?;
        let dtqs = Dtqs::open(alloc, &conf.sync)?;
        Ok(Kernel {
            parts: Parts {
                clock,
                tasks,
                sems,
                flags,
                dtqs,
                waits: ArrayVec::new(),
                last_call: CallNo(0),
            },
        })
    }
}
