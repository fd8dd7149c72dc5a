ghost use Rattle.std.specs.Prelude.{◌≡◌, ◌<◌, ◌+◌, ℕ, true, Some, IfSome, count_by, length, option_map, slice_get};
ghost use Rattle.mm_move_rules.specs.{record_at, is_empty, counts_of};
ghost use Rattle.mm_pfn_database.specs.{has_block, modified_with_block, IsAtRest};
ghost use Rattle.mm_parts.specs.{front, first_frame};

use crate::parts::Parts;
use mm_types::{Counts, Frame};

#[tactic(auto, using(crate::proofs::Reading::first_is, crate::proofs::Reading::none_first, mm_move_laws::proofs::Facts::facts_of))]
impl Parts {
    ghost use Rattle.mm_parts.specs.{shown_parts};

    /// The first zeroed frame, that of `assign`; `None` exactly where none is zeroed.
    pub fn front_zeroed(&self) -> Option<Frame>
        ensures { result ≡ first_frame (shown_parts self.now).life.frames.zeroed }
    {
        self.frames.front_zeroed()
    }

    /// The first free frame, that of `clear`; `None` exactly where none is free.
    pub fn front_free(&self) -> Option<Frame>
        ensures { result ≡ first_frame (shown_parts self.now).life.frames.free }
    {
        self.frames.front_free()
    }

    /// The first frame on standby, that of `repurpose`; `None` exactly where none is there.
    pub fn front_standby(&self) -> Option<Frame>
        ensures { result ≡ first_frame (shown_parts self.now).life.frames.standby }
    {
        self.frames.front_standby()
    }

    /// Whether no frame is zeroed.
    pub fn no_zeroed(&self) -> bool
        ensures { result ≡ is_empty (shown_parts self.now).life.frames.zeroed }
    {
        self.front_zeroed().is_none()
    }

    /// Whether no frame is free.
    pub fn no_free(&self) -> bool
        ensures { result ≡ is_empty (shown_parts self.now).life.frames.free }
    {
        self.front_free().is_none()
    }

    /// Whether no frame is on standby.
    pub fn no_standby(&self) -> bool
        ensures { result ≡ is_empty (shown_parts self.now).life.frames.standby }
    {
        self.front_standby().is_none()
    }

    /// The first modified frame; `None` exactly where none is modified.
    pub fn front_modified(&self) -> Option<Frame>
        ensures first { result ≡ first_frame (shown_parts self.now).life.frames.modified }
        ensures there { IfSome result (λ f. f.0 < (shown_parts self.now).life.machine.frames) }
        ensures rests { IfSome result
            (λ f. IsAtRest true (record_at (shown_parts self.now).life.frames f.0)) }
    {
        self.frames.front_modified()
    }

    /// How many modified frames have a block as backing. The others are written to slots.
    pub fn modified_with_block(&self) -> u32
        ensures { result ≡ length (modified_with_block (shown_parts self.now).life.frames) }
    {
        self.frames.modified_with_block()
    }

    /// The first modified frame that has a block as backing; `None` exactly where none has.
    pub fn front_modified_with_block(&self) -> Option<Frame>
        ensures first { result ≡ first_frame
            (modified_with_block (shown_parts self.now).life.frames) }
        ensures there { IfSome result (λ f. f.0 < (shown_parts self.now).life.machine.frames) }
        ensures rests { IfSome result
            (λ f. IsAtRest true (record_at (shown_parts self.now).life.frames f.0)) }
        ensures block { IfSome result
            (λ f. has_block (record_at (shown_parts self.now).life.frames f.0).backing ≡ true) }
    {
        self.frames.front_modified_with_block()
    }

    /// How many slots are free.
    pub fn free_slots(&self) -> u32
        ensures { result ≡ count_by (λ b. b) (shown_parts self.now).life.free_slots }
    {
        self.slots.free_count()
    }

    /// How many frames stand where, how many slots are free, and how many requests there are, the
    /// line's own among them.
    pub fn counts(&self) -> Counts
        ensures { result ≡ counts_of (shown_parts self.now).life }
    {
        let frames = self.frames.counts();
        Counts {
            zeroed: frames.zeroed,
            free: frames.free,
            standby: frames.standby,
            modified: frames.modified,
            active: frames.active,
            transition: frames.transition,
            free_slots: self.free_slots(),
            requests: self.requests(),
        }
    }
}
