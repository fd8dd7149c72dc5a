ghost use Rattle.std.specs.Prelude.{◌≡◌, ◌≤◌, [], ◌∷◌, IfOk, IfSome, IsSome, ◌↔◌, Some, vec_len, vec_capacity};
ghost use Rattle.mm_devices.specs.Numbered.{calls_told, next_call};
ghost use Rattle.mm_devices.specs.Traffic.{Logged};

use crate::DeviceCall;
use mm_types::NoMemory;
use std::alloc::Global;

/// The calls since it was begun, as long as there is room for all of them.
#[derive(Drop)]
pub(crate) struct CallLog {
    pub calls: Vec<DeviceCall>,
    pub room: u32,
    pub made: u64,
    ghost has_room: { room ≤ vec_capacity calls },
    ghost each_made: { vec_len calls ≤ made },
}

impl CallLog {
    /// A log with room for so many calls.
    pub(crate) fn new(alloc: Global, room: u32) -> Result<CallLog, NoMemory>
        ensures calls { IfOk result (λ l. l.calls.items ≡ []) }
        ensures room { IfOk result (λ l. l.room ≡ room) }
        ensures made { IfOk result (λ l. l.made ≡ 0) }
    {
        let calls = Vec::with_capacity(alloc, room as usize)?;
        Ok(CallLog {
            calls,
            room,
            made: 0,
        })
    }

    /// Begins anew.
    pub(crate) fn begin(&mut self)
        ensures calls { self.new.calls.items ≡ [] }
        ensures room { self.new.room ≡ self.old.room }
        ensures made { self.new.made ≡ 0 }
    {
        self.calls.clear();
        self.made = 0;
    }

    /// One more call.
    pub(crate) fn note(&mut self, call: DeviceCall)
        ensures logged { Logged (calls_told self.old.room self.old.made self.old.calls.items)
            (calls_told self.new.room self.new.made self.new.calls.items) (call ∷ []) }
        ensures room { self.new.room ≡ self.old.room }
        ensures made { self.new.made ≡ next_call self.old.made }
    {
        self.made = self.made.saturating_add(1);
        if self.made <= u64::from(self.room) {
            self.calls.push_reserved(call);
        }
    }

    /// All calls since it was begun, where there was room for them.
    pub(crate) fn calls(&self) -> Option<&[DeviceCall]>
        ensures calls { IfSome result
            (λ calls. calls_told self.now.room self.now.made self.now.calls.items ≡ Some calls.now) }
        ensures cases { IsSome result ↔ (self.now.made ≤ self.now.room) }
    {
        if self.made <= u64::from(self.room) {
            Some(self.calls.as_slice())
        } else {
            None
        }
    }
}
