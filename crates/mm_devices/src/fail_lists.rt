ghost use Rattle.std.specs.Prelude.{◌≡◌, ◌≤◌, ◌↔◌, true};
ghost use Rattle.std.specs.Bool.{OnTrue, OnFalse};
ghost use Rattle.mm_types.specs.{Rose};
ghost use Rattle.mm_devices.specs.Numbered.{NextFails, next_call};

/// Counts calls from 1. Those in the list are to fail.
#[derive(Drop)]
pub(crate) struct FailList {
    pub fails: Vec<u32>,
    pub calls: u64,
    pub faults: u64,
}

impl FailList {
    /// One more call: whether it is to fail.
    pub(crate) fn next_fails(&mut self) -> bool
        ensures fails { (result ≡ true) ↔ NextFails self.old.fails.items self.old.calls }
        ensures calls { self.new.calls ≡ next_call self.old.calls }
        ensures same_fails { self.new.fails ≡ self.old.fails }
        ensures later { self.old.faults ≤ self.new.faults }
        ensures rose { OnTrue result (Rose self.old.faults self.new.faults) }
        ensures stays { OnFalse result (self.new.faults ≡ self.old.faults) }
    {
        self.calls = self.calls.saturating_add(1);
        let call = self.calls;
        if self.fails.iter().any(|fail| u64::from(*fail) == call) {
            self.count_fault();
            return true;
        }
        false
    }

    /// The device failed once more.
    pub(crate) fn count_fault(&mut self)
        ensures later { self.old.faults ≤ self.new.faults }
        ensures rose { Rose self.old.faults self.new.faults }
        ensures calls { self.new.calls ≡ self.old.calls }
        ensures same_fails { self.new.fails ≡ self.old.fails }
    {
        self.faults = self.faults.saturating_add(1);
    }
}
