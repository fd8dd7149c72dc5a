ghost use Rattle.std.specs.Prelude.{◌≡◌, ℕ, Bool, List, Some, false, true, length, map};
ghost use Rattle.mm_types.specs.{Frame};
ghost use Rattle.mm_move_rules.specs.{record_at, is_read, ended_by};
ghost use Rattle.mm_ram.specs.{page_at, bytes_of, zero_page};
ghost use Rattle.mm_pfn_database.specs.{is_bound};
ghost use Rattle.mm_requests.specs.{ended, Waiting};
ghost use Rattle.mm_parts.specs.{EntriesAgree, SlotsAgree, RequestsAgree, SetsAgree, LinesHold, PagesHold, StorageHolds, waits_of};

use crate::parts::Parts;

impl Parts {
    ghost use Rattle.mm_parts.specs.{shown_parts, parts_words, parts_ages, parts_flight};

    /// Each key has one entry, which says where it stands, and the words of places name the frames
    /// that they are valid for. A free slot has no holder, and each other slot one. The requests
    /// are those of the frames' records, at most one more than the depth: those in flight, and the
    /// line's own. Each working set holds the valid places of its process, each with an age. It
    /// does nothing.
    pub fn parts_agree(&self)
        ensures entries { EntriesAgree (shown_parts self.now).life (parts_words self.now) }
        ensures slots { SlotsAgree (shown_parts self.now).life }
        ensures requests { RequestsAgree (shown_parts self.now).life (parts_flight self.now)
            (shown_parts self.now).own }
        ensures sets { SetsAgree (shown_parts self.now).life (parts_ages self.now) }
    {
        self.flight.requests_hold();
        self.words.working_sets_hold();
    }

    /// What holds at all times: of lines, of pages and of what is on devices. It does nothing.
    pub fn parts_hold(&self)
        ensures lines { LinesHold (shown_parts self.now) }
        ensures pages { PagesHold (shown_parts self.now) }
        ensures storage { StorageHolds (shown_parts self.now) }
    {
        self.words.words_hold();
        self.words.working_sets_hold();
        self.flight.requests_hold();
    }

    /// A frame that was written has 4,096 bytes; one that has an owner or a write request, and no
    /// read request, was written. It does nothing.
    pub fn bytes_hold(&self)
        ensures whole { (f : ℕ) (page : List ℕ) →
            page_at (shown_parts self.now).bytes f ≡ Some page →
            length page ≡ 4096 }
        ensures written { (f : ℕ) →
            is_bound (record_at (shown_parts self.now).life.frames f) ≡ true →
            is_read (record_at (shown_parts self.now).life.frames f).request ≡ false →
            page_at (shown_parts self.now).bytes f ≡ Some
            (bytes_of (shown_parts self.now).bytes f) }
    {
        self.frames.written_frames_are_whole();
    }
}

/// The end of a read ends the waits for it as walks through moves have it. It does nothing.
pub fn waits_end_as_walks_have_it()
    ensures { (waits : List Waiting) (f t : ℕ) (ok : Bool) →
        waits_of (map (ended f ok) waits) t ≡ ended_by f ok (waits_of waits t) }
{}
