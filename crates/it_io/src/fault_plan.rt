ghost use Rattle.std.specs.Prelude.{◌≡◌, ◌↔◌, [], IsErr, OnErr, OnOk, Contains};
ghost use Rattle.it_io.specs.Faults.{next_count};

use super::errors::Failed;

// Which calls of a source or sink over memory are to fail, by their numbers from 1.
#[derive(Drop)]
pub(crate) struct FaultPlan {
    pub(crate) fail: Vec<u64>,
    pub(crate) calls: u64,
    pub(crate) faults: u64,
}

impl FaultPlan {
    pub(crate) fn new(fail: Vec<u64>) -> Self
        ensures fail { result.fail.items ≡ fail.items }
        ensures calls { result.calls ≡ 0 }
        ensures faults { result.faults ≡ 0 }
    {
        FaultPlan {
            fail,
            calls: 0,
            faults: 0,
        }
    }

    // Counts a call, which fails where its number is listed.
    pub(crate) fn begin(&mut self) -> Result<(), Failed>
        ensures fails { IsErr result ↔ Contains self.old.fail.items (next_count self.old.calls) }
        ensures fail { self.new.fail.items ≡ self.old.fail.items }
        ensures calls { self.new.calls ≡ next_count self.old.calls }
        ensures ok { OnOk result (self.new.faults ≡ self.old.faults) }
        ensures err { OnErr result (self.new.faults ≡ next_count self.old.faults) }
    {
        self.calls = self.calls.saturating_add(1);
        if self.fail.contains(&self.calls) {
            return Err(self.fault());
        }
        Ok(())
    }

    // Counts a fault.
    pub(crate) fn fault(&mut self) -> Failed
        ensures fail { self.new.fail.items ≡ self.old.fail.items }
        ensures calls { self.new.calls ≡ self.old.calls }
        ensures faults { self.new.faults ≡ next_count self.old.faults }
    {
        self.faults = self.faults.saturating_add(1);
        Failed
    }
}
