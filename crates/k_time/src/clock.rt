ghost use Rattle.std.specs.Prelude.{◌≡◌, ◌<◌, ◌≤◌, ◌^◌, ◌+◌, IfOk, None, true, length};
ghost use Rattle.spec_lists.specs.Refusal.{first_refusal};
ghost use Rattle.spec_lists.specs.Tables.{empty_table, get};
ghost use Rattle.spec_kernel.specs.PlainClock.{answer_on, are_new_cyclics, cyclic_at_start, due_at_tick, greatest_cyclic, opened_clock, refusals, sta_cyc, stp_cyc, ticked_clock, time_set};

use crate::cyclics::{self, MAX_CYCLICS};
use arrayvec::ArrayVec;
use it_types::{CycConf, CycDecl, E_ID, E_NOEXS, E_OK, Er, NoMemory, ObjId, Table, first_refusal};
use spec_kernel::CyclicBlock;
use std::alloc::Global;
use std::marker::Model;

/// The greatest id of a cyclic handler.
pub const GREATEST_CYCLIC: u32 = 8;

/// The ticks of a kernel so far, its system time, and its cyclic handlers by their ids. After its opening it takes no memory.
#[derive(Debug, Drop)]
pub struct Clock {
    ticks: u64,
    system: u64,
    cyclics: Table<CyclicBlock, MAX_CYCLICS>,
}

impl Model for Clock {
    ghost use Rattle.spec_kernel.specs.PlainClock.{PlainClock};
    ghost use Rattle.k_time.specs.Kept.{Kept};

    ghost Value = { PlainClock };

    ghost view = { λ c. record { now = c.ticks; system = c.system; cyclics = c.cyclics } };

    ghost invariant = { λ c. Kept (record { now = c.ticks; system = c.system; cyclics = c.cyclics }) };
}

/// The declared cyclic handlers by their ids.
fn cyclic_table(
    alloc: Global,
    decls: &[CycDecl],
) -> Result<Table<CyclicBlock, MAX_CYCLICS>, NoMemory>
    requires { are_new_cyclics (empty_table greatest_cyclic) decls.now ≡ true }
    ensures { IfOk result (λ t. t ≡ (opened_clock decls.now).cyclics) }
{
    let mut table = Table::new(alloc)?;
    for decl in decls {
        let _ = table.put(
            decl.id,
            CyclicBlock {
                period: decl.period,
                runs: decl.on,
                due: decl.phase as u64 + 1,
            },
        );
    }
    Ok(table)
}

impl Clock {
    /// The clock at tick 0 with these declarations, whose ids are from 1 to 8 and distinct: a handler that is on is first due
    /// at the tick after its phase (µITRON4.0 section 4.7.2).
    pub fn open(alloc: Global, conf: &CycConf) -> Result<Clock, NoMemory>
        requires { are_new_cyclics (empty_table greatest_cyclic) conf.now.cycs ≡ true }
        ensures { IfOk result (λ c. c ≡ opened_clock conf.now.cycs) }
    {
        let cyclics = cyclic_table(alloc, conf.cycs.as_slice())?;
        Ok(Clock {
            ticks: 0,
            system: 0,
            cyclics,
        })
    }

    /// The ticks so far.
    pub fn now(&self) -> u64
        ensures { result ≡ self.now.now }
    {
        self.ticks
    }

    /// Sets the system time, in ticks (µITRON4.0 section 4.7.1, `set_tim`); it rises with the ticks from there on. Neither the
    /// ticks nor what is due at one of them change.
    pub fn set_tim(&mut self, ms: u64)
        requires { ms < 2 ^ 63 }
        ensures { self.new ≡ time_set self.old ms }
    {
        self.system = ms;
    }

    /// The system time, in ticks (µITRON4.0 section 4.7.1, `get_tim`).
    pub fn get_tim(&self) -> u64
        ensures { result ≡ self.now.system }
    {
        self.system
    }

    fn refusal(&self, id: ObjId) -> Option<Er>
        ensures { result ≡ first_refusal (refusals self.now id) }
    {
        first_refusal! {
            id.0 == 0 || id.0 > GREATEST_CYCLIC => E_ID,
            self.cyclics.get(id.0).is_none() => E_NOEXS,
        }
    }

    /// Starts a cyclic handler, or starts it anew: it is due a tick after its period is over (µITRON4.0 section 4.7.2,
    /// `sta_cyc`).
    pub fn sta_cyc(&mut self, id: ObjId) -> Er
        requires counts { self.old.now < 2 ^ 61 }
        ensures clock { self.new ≡ sta_cyc self.old id }
        ensures code { result ≡ answer_on self.old id }
    {
        match self.refusal(id) {
            Some(code) => code,
            None => {
                cyclics::start(&mut self.cyclics, id, self.ticks);
                E_OK
            }
        }
    }

    /// Stops a cyclic handler (µITRON4.0 section 4.7.2, `stp_cyc`).
    pub fn stp_cyc(&mut self, id: ObjId) -> Er
        ensures clock { self.new ≡ stp_cyc self.old id }
        ensures code { result ≡ answer_on self.old id }
    {
        match self.refusal(id) {
            Some(code) => code,
            None => {
                cyclics::stop(&mut self.cyclics, id);
                E_OK
            }
        }
    }

    /// One tick: the ticks and the system time rise by one. Gives the handlers that come due, by rising id; each is due again
    /// after its period.
    pub fn tick(&mut self) -> ArrayVec<ObjId, 8>
        requires counts { self.old.now < 2 ^ 61 }
        ensures clock { self.new ≡ ticked_clock self.old }
        ensures due { result.items ≡ due_at_tick self.old }
    {
        self.ticks += 1;
        self.system += 1;
        cyclics::come_due(&mut self.cyclics, self.ticks)
    }
}
