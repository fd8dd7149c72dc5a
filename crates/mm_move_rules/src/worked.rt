ghost use Rattle.std.specs.Prelude.{◌≡◌, ℕ, List, option_map, is_some, Some, None, [], ◌∷◌, ◌++◌, true, false, length};
ghost use Rattle.mm_types.specs.{MachineOf, LineKind, Move};
ghost use Rattle.mm_move_rules.specs.{counts_of, life_at, unstarted, FrameBytes, BlockBytes, BytesLocated, contents_of, is_legal, replay_log, FrameLife};
ghost use Rattle.mm_move_rules.specs.{Replays, replay, counts_of_log, rewritten_log, rewritten_head, rewritten_tail, smallest_set_log, frame, private};

/// Moves lead from one state to another exactly where replaying them one by one comes to it: what
/// is computed below holds of the relation that the contracts above cite.
pub fn replay_computes_where_moves_lead()
    ensures comes { (xs : List Move) (l m : FrameLife) → Replays xs l m → replay l xs ≡ Some m }
    ensures leads { (xs : List Move) (l m : FrameLife) → replay l xs ≡ Some m → Replays xs l m }
{}

/// A page rewritten while its write is in flight: the 24 moves replay, and leave one frame active
/// and seven free.
pub fn rewritten_page_replays()
    ensures counts { option_map counts_of (replay_log rewritten_log)
        ≡ Some (record {
          zeroed = 0;
          free = 7;
          standby = 0;
          modified = 0;
          active = 1;
          transition = 0;
          free_slots = 8;
          requests = 0;
        }) }
    ensures log { counts_of_log rewritten_log ≡ record {
      moves = 24;
      zero_fills = 1;
      soft_faults = 2;
      hard_faults = 0;
      steals = 0;
      write_outs = 1;
    } }
{}

/// With the second frame cleared in place of the first free one, the sixth move is illegal and the
/// five before it are not.
pub fn other_frame_is_illegal()
    ensures six { replay_log (rewritten_head 1) ≡ None }
    ensures all { replay_log (rewritten_head 1 ++ rewritten_tail) ≡ None }
    ensures first_free { is_some (replay_log (rewritten_head 0)) ≡ true }
{}

/// The smallest working set: its only page goes for the next.
pub fn smallest_set_replays()
    ensures { option_map counts_of (replay_log smallest_set_log)
        ≡ Some (record {
          zeroed = 0;
          free = 4;
          standby = 0;
          modified = 1;
          active = 1;
          transition = 0;
          free_slots = 0;
          requests = 0;
        }) }
{}

/// Nothing is legal before the first line but that line.
pub fn nothing_but_line_one()
    ensures { option_map counts_of (replay_log [])
        ≡ Some (record {
          zeroed = 0;
          free = 0;
          standby = 0;
          modified = 0;
          active = 0;
          transition = 0;
          free_slots = 0;
          requests = 0;
        }) }
{}

/// A page's bytes are those of its frame, and a key that is not live has none.
pub fn bytes_stand_in_frames()
    ensures frame { (a b : List ℕ) →
        option_map (λ l. contents_of l (Some a ∷ Some b ∷ []) [] [] (private 1 17))
        (replay_log smallest_set_log) ≡ Some (Some b) }
    ensures dead { (a b : List ℕ) →
        option_map (λ l. contents_of l (Some a ∷ Some b ∷ []) [] [] (private 1 18))
        (replay_log smallest_set_log) ≡ Some None }
{}

/// Right after the machine's line any bytes of its size fit the state.
pub fn any_bytes_fit_at_rest()
    ensures { (m : MachineOf) (n : ℕ) (k : LineKind) (ram : FrameBytes) (slots blocks : BlockBytes)
        → length ram ≡ m.frames → length slots ≡ m.slots → length blocks ≡ m.blocks →
        BytesLocated (life_at m n k) ram slots blocks }
{}
