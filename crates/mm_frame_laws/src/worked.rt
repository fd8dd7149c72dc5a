ghost use Rattle.std.specs.Prelude.{◌≡◌, option_map, Some, None, [], ◌∷◌, ◌++◌, true, false, length};
ghost use Rattle.std.specs.List.{list_any};
ghost use Rattle.mm_move_rules.specs.{is_short, replay_log, can_be_written, frame, place};
ghost use Rattle.mm_frame_laws.specs.{first_to_go, eight_pages, eight_places, first_emptied, second_emptied, first_fails, one_too_many};

/// Eight frames of eight hold valid pages: the first of equal age goes first, and the next where
/// its frame is pinned.
pub fn eight_pages_are_emptied()
    ensures short { option_map is_short (replay_log eight_pages) ≡ Some true }
    ensures victim { option_map (λ l. first_to_go l (λ p. 0) None eight_places)
        (replay_log eight_pages) ≡ Some (Some (place 1 16)) }
    ensures pinned { option_map (λ l. first_to_go l (λ p. 0) (Some (frame 0)) eight_places)
        (replay_log eight_pages) ≡ Some (Some (place 1 17)) }
    ensures first { option_map (λ l. l.frames.standby) (replay_log (eight_pages ++ first_emptied)) ≡
        Some (0 ∷ []) }
    ensures second { option_map (λ l. l.frames.standby)
        (replay_log (eight_pages ++ second_emptied)) ≡ Some (1 ∷ []) }
    ensures fails { option_map (λ l. l.frames.modified) (replay_log (eight_pages ++ first_fails)) ≡
        Some (0 ∷ []) }
{}

/// With one request more than the depth there can be no frame: so a search is begun with at most
/// depth in flight.
pub fn one_request_too_many_leaves_no_frame()
    ensures depth { option_map (λ l. l.machine.depth) (replay_log one_too_many) ≡ Some 1 }
    ensures in_flight { option_map (λ l. l.flight) (replay_log one_too_many) ≡ Some (0 ∷ 2 ∷ []) }
    ensures short { option_map is_short (replay_log one_too_many) ≡ Some true }
    ensures modified { option_map (λ l. l.frames.modified) (replay_log one_too_many) ≡
        Some (3 ∷ 4 ∷ 5 ∷ []) }
    ensures unwritable { option_map (λ l. list_any (λ f. can_be_written l f) l.frames.modified)
        (replay_log one_too_many) ≡ Some false }
    ensures stays { option_map (λ l. first_to_go l (λ p. 0) (Some (frame 1)) (place 1 32 ∷ []))
        (replay_log one_too_many) ≡ Some None }
{}
