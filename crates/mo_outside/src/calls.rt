ghost use Rattle.std.specs.Prelude.{◌≡◌, ◌==◌, ◌≤◌, ◌+◌, ◌||◌, is_err, not, OnOk};
ghost use Rattle.std.specs.List.{list_any};
ghost use Rattle.mo_outside.specs.Calls.{is_failing, counted};

use crate::traits::Failed;
use mo_types::Items;
use std::alloc::Global;
use std::marker::Model;

/// Numbers of calls, counted from 1.
pub type CallList = Items<u64>;

// Whether the number after `made` is one of the numbers.
fn has_next(numbers: &[u64], made: u64) -> bool
    ensures { result ≡ list_any (λ number. number == made + 1) numbers.now }
{
    made < u64::MAX && numbers.contains(&(made + 1))
}

/// The calls of an object, some of which are to fail.
#[derive(Drop)]
pub struct CallCount {
    failing: CallList,
    made: u64,
    faults: u64,
}

impl Model for CallCount {
    ghost use Rattle.mo_outside.specs.Calls.{Calls};

    ghost Value = { Calls };

    ghost view = { λ calls. record { failing = calls.failing; made = calls.made; faults = calls.faults } };
}

impl CallCount {
    /// No calls yet, of which those of these numbers are to fail.
    pub fn new(failing: CallList) -> CallCount
        ensures { result ≡ record { failing = failing; made = 0; faults = 0 } }
    {
        CallCount {
            failing,
            made: 0,
            faults: 0,
        }
    }

    /// Counts a call, which fails where its number is one of those that are to fail, and where it can't be
    /// done.
    pub fn count(&mut self, can_be_done: bool) -> Result<(), Failed>
        ensures failed { is_err result ≡ (is_failing self.old || not can_be_done) }
        ensures counts { self.new ≡ counted (is_err result) self.old }
        ensures faults { self.old.faults ≤ self.new.faults }
        ensures still { OnOk result (self.new.faults ≡ self.old.faults) }
    {
        let fails = has_next(self.failing.as_slice(), self.made) || !can_be_done;
        self.made = self.made.saturating_add(1);
        if fails {
            self.faults = self.faults.saturating_add(1);
            return Err(Failed);
        }
        Ok(())
    }

    /// How many calls failed.
    pub fn faults(&self) -> u64
        ensures { result ≡ self.now.faults }
    {
        self.faults
    }
}
