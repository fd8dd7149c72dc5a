ghost use Rattle.std.specs.Prelude.{◌≡◌, ◌-◌, [], ◌∷◌, true, false, None, Some};
ghost use Rattle.mm_types.specs.declared.devices.Direction.TheVariants as way;
ghost use Rattle.mm_types.specs.declared.moves.Move.TheVariants as move;
ghost use Rattle.mm_types.specs.declared.moves.Stored.TheVariants as stored;
ghost use Rattle.mm_move_rules.specs.{rewritten_log, smallest_set_log, frame, slot, place, private, writes_begun, clearings};
ghost use Rattle.mm_store.specs.{AccessMoves, none_told, told_through, paging_traffic, page_rank, section_rank, FlushMoves, Makes, MakesStack};
ghost use Rattle.mm_store.specs.{Turned, LowestFirst, Goes};
ghost use Rattle.mm_line_moves.specs.{changed_record, page_written_to, shared, section_log, life_after, behind_after, second_write, next_page, going};
ghost use Rattle.std.specs.Prelude.{is_some, ◌++◌, take};
ghost use Rattle.mm_move_rules.specs.{replay_log};
ghost use Rattle.mm_line_moves.specs.{same_page, copied_log, copy_of_page};
ghost use Rattle.mm_types.specs.declared.answers.Answer.TheVariants as answer;
ghost use Rattle.mm_types.specs.declared.codes.Raise.TheVariants as raise;
ghost use Rattle.mm_world.specs.Report.{Report};
ghost use Rattle.mm_store.specs.Behind.{Behind};
ghost use Rattle.mm_line_moves.specs.{Accesses, page_awaited, resumed_log};
ghost use Rattle.mm_line_moves.specs.{page_being_read, read_again, read_log};
ghost use Rattle.mm_types.specs.{Answer};
ghost use Rattle.mm_line_moves.specs.{behind_page, before_all, mapped_alone, shared_again, with_sections};
ghost use Rattle.mm_line_moves.specs.{due, EndsRead, MakesRoom, Nothing, TheMove};
ghost use Rattle.mm_move_rules.specs.{after_move};
ghost use Rattle.mm_types.specs.declared.answers.Why.TheVariants as why;

/// The page that was trimmed is written to the lowest slot; its write, completed, is a call of the
/// paging device.
pub fn page_written_out()
    ensures begins { writes_begun 1 (life_after 11 rewritten_log)
        (life_after 11 rewritten_log).frames.modified ≡
        move.Write (frame 0) (stored.Slot (slot 0)) ∷ [] }
    ensures none { writes_begun 0 (life_after 11 rewritten_log)
        (life_after 11 rewritten_log).frames.modified ≡ [] }
    ensures clears { clearings 1 (life_after 5 rewritten_log) ≡ move.Clear (frame 0) ∷ [] }
    ensures told { told_through (life_after 20 rewritten_log) (move.Wrote (frame 0) ∷ []) none_told
        ≡ record none_told {
          paging_writes = record { succeeded = 1; failed = 0 };
          search_writes = record { succeeded = 1; failed = 0 };
        } }
    ensures calls { paging_traffic (life_after 20 rewritten_log) (move.Wrote (frame 0) ∷ []) ≡
        record {
          direction = way.Write;
          block = 0;
          succeeded = true;
        } ∷ [] }
{}

/// A page that stands in a frame is mapped, and soiled by a write.
pub fn soft_fault()
    ensures { AccessMoves second_write (behind_after 14 rewritten_log)
        (move.Map (frame 0) (place 1 16) ∷ move.Soil (frame 0) ∷ []) }
{}

/// The only page of a full set goes right before the next is mapped.
pub fn full_set()
    ensures { AccessMoves next_page (behind_after 10 smallest_set_log)
        (move.Clear (frame 1) ∷ move.Give (frame 1) (private 1 17) ∷ move.Unmap (place 1 16) ∷
        move.Map (frame 1) (place 1 17) ∷ []) }
{}

/// Pages are given up one after another: the place of each, then its key. The keys of a section go
/// from the lowest on, before all others where they go with a handle, and right behind the pages of
/// the view that they go with.
pub fn pages_given_up()
    ensures viewed { Turned (Goes (going (page_rank 17 - 1)))
        (life_after 8 section_log) behind_page }
    ensures held { Turned (Goes (going 1)) (life_after 8 section_log) before_all }
    ensures late { Turned (Goes (going 1)) (life_after 8 section_log) behind_page → ⊥ }
    ensures early { Turned (Goes (going (page_rank 17 - 1))) (life_after 8 section_log) before_all →
        ⊥ }
    ensures key_first { LowestFirst (life_after 10 smallest_set_log)
        (move.Drop (private 1 16) ∷ move.Unmap (place 1 16) ∷ []) → ⊥ }
    ensures falls { LowestFirst (life_after 8 section_log)
        (move.Drop (shared 0 1) ∷ move.Drop (shared 0 0) ∷ []) → ⊥ }
{}

/// A process gives up a section with its last view of it or, without one, with its last handle to
/// it.
pub fn sections_given_up()
    ensures viewed { section_rank 0 (Some with_sections) ≡ page_rank 50 - 1 }
    ensures held { section_rank 1 (Some with_sections) ≡ 4 }
    ensures none { section_rank 2 (Some with_sections) ≡ 0 }
{}

/// Pages come to be in rising order; of a new stack the guard page, the lowest, comes last.
pub fn pages_made()
    ensures rises { Turned Makes (life_after 8 section_log)
        (move.Add (shared 0 4) None ∷ move.Add (shared 0 5) None ∷ []) }
    ensures falls { Turned Makes (life_after 8 section_log)
        (move.Add (shared 0 5) None ∷ move.Add (shared 0 4) None ∷ []) → ⊥ }
    ensures stack { Turned (MakesStack 17) (life_after 8 section_log)
        (move.Add (private 1 18) None ∷ move.Add (private 1 19) None ∷
        move.Add (private 1 17) None ∷ []) }
{}

/// What a flush does with a page by its frame: a changed page is written, one that is being written
/// is waited for first, and written again where it was written to meanwhile.
pub fn page_flushed()
    ensures changed { FlushMoves changed_record (frame 0)
        (move.Write (frame 0) (stored.Slot (slot 0)) ∷ move.Wrote (frame 0) ∷ []) }
    ensures never_left { FlushMoves changed_record (frame 0) [] → ⊥ }
    ensures again { FlushMoves page_written_to (frame 0)
        (move.Wrote (frame 0) ∷ move.Write (frame 0) (stored.Slot (slot 0)) ∷ move.Lost (frame 0) ∷
        []) }
    ensures lost { FlushMoves page_written_to (frame 0) (move.Lost (frame 0) ∷ []) }
    ensures once { FlushMoves page_written_to (frame 0) (move.Wrote (frame 0) ∷ []) → ⊥ }
{}

/// A write that maps its page and leaves it as it was is no write: while the page is written to its
/// slot its frame is soiled again, so that what was written is not lost.
pub fn write_left_unsoiled()
    ensures never { (after : Report) →
        Accesses true second_write answer.Ok after (behind_after 14 rewritten_log)
        (move.Map (frame 0) (place 1 16) ∷ []) mapped_alone → ⊥ }
    ensures moves { AccessMoves second_write (behind_after 14 rewritten_log)
        (move.Map (frame 0) (place 1 16) ∷ []) }
    ensures legal { is_some (replay_log (take 14 rewritten_log ++
        move.Map (frame 0) (place 1 16) ∷ [])) ≡ true }
{}

/// Once a page was copied, the page that it is a copy of is not mapped again.
pub fn shared_page_mapped_again()
    ensures never { AccessMoves copy_of_page (behind_after 9 copied_log) shared_again → ⊥ }
    ensures legal { is_some (replay_log (copied_log ++ shared_again)) ≡ true }
{}

/// A thread does not wait for a frame where one is free.
pub fn frame_at_hand()
    ensures { (after : Report) →
        Accesses false page_awaited (answer.Pending why.Frame) after (behind_after 9 resumed_log) []
        (behind_after 9 resumed_log) → ⊥ }
{}

/// An access of a page that is valid makes no room for it in a full set: the place is not given up
/// and mapped again, though each move would be legal.
pub fn same_page_again()
    ensures never { AccessMoves same_page (behind_after 10 smallest_set_log)
        (move.Unmap (place 1 16) ∷ move.Map (frame 0) (place 1 16) ∷ move.Unmap (place 1 16) ∷
        move.Map (frame 0) (place 1 16) ∷ []) → ⊥ }
    ensures legal { is_some (replay_log (take 10 smallest_set_log ++
        (move.Unmap (place 1 16) ∷ move.Map (frame 0) (place 1 16) ∷ move.Unmap (place 1 16) ∷
        move.Map (frame 0) (place 1 16) ∷ []))) ≡ true }
{}

/// A write that copies soils no page that it copies from.
pub fn copied_page_soiled()
    ensures never { AccessMoves copy_of_page (behind_after 9 copied_log)
        (move.Soil (frame 0) ∷ move.Clear (frame 1) ∷ move.Add (private 1 16) None ∷
        move.Give (frame 1) (private 1 16) ∷ move.Unmap (place 1 16) ∷
        move.Map (frame 1) (place 1 16) ∷ []) → ⊥ }
    ensures legal { is_some (replay_log (copied_log ++
        (move.Soil (frame 0) ∷ move.Clear (frame 1) ∷ move.Add (private 1 16) None ∷
        move.Give (frame 1) (private 1 16) ∷ move.Unmap (place 1 16) ∷
        move.Map (frame 1) (place 1 16) ∷ []))) ≡ true }
    ensures copied { AccessMoves copy_of_page (behind_after 9 copied_log)
        (move.Clear (frame 1) ∷ move.Add (private 1 16) None ∷
        move.Give (frame 1) (private 1 16) ∷ move.Unmap (place 1 16) ∷
        move.Map (frame 1) (place 1 16) ∷ []) }
{}

/// A thread whose read failed while it waited begins no other when it is resumed, though the move
/// would be legal.
pub fn failed_read_resumed()
    ensures never { (after : Report) (c : Behind) →
        Accesses false page_awaited (answer.Raised raise.InPageError) after
        (behind_after 9 resumed_log) (move.Read (frame 1) (shared 0 0) ∷ []) c → ⊥ }
    ensures legal { is_some (replay_log (resumed_log ++
        (move.Read (frame 1) (shared 0 0) ∷ []))) ≡ true }
{}

/// An access whose read failed reads no page again, whatever it answers, though the moves would be
/// legal.
pub fn failed_read_is_last()
    ensures never { (r : Answer) (after : Report) (c : Behind) →
        Accesses true page_being_read r after (behind_after 7 read_log) read_again c → ⊥ }
    ensures moves { AccessMoves page_being_read (behind_after 7 read_log) read_again }
    ensures legal { is_some (replay_log (read_log ++ read_again)) ≡ true }
{}

/// The next move of an access is told by the tables alone: a page that has a frame is mapped, and
/// soiled by a write; one that has none gets a frame, which is cleared first; the oldest page of a
/// full set goes before the next is mapped; a read that is in flight ends; and of a page that is
/// valid and not written to no move is due.
pub fn moves_due()
    ensures maps { due second_write (life_after 14 rewritten_log) ≡
        TheMove (move.Map (frame 0) (place 1 16)) }
    ensures soils { due second_write (after_move (life_after 14 rewritten_log)
        (move.Map (frame 0) (place 1 16))) ≡ TheMove (move.Soil (frame 0)) }
    ensures clears { due next_page (life_after 10 smallest_set_log) ≡
        TheMove (move.Clear (frame 1)) }
    ensures room { due next_page (after_move (after_move (life_after 10 smallest_set_log)
        (move.Clear (frame 1))) (move.Give (frame 1) (private 1 17))) ≡ MakesRoom }
    ensures ends { due page_being_read (life_after 7 read_log) ≡ EndsRead (frame 0) }
    ensures copies { due copy_of_page (life_after 9 copied_log) ≡ TheMove (move.Clear (frame 1)) }
    ensures nothing { due same_page (life_after 10 smallest_set_log) ≡ Nothing }
{}
