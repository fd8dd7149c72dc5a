ghost use Rattle.std.specs.Prelude.{◌≡◌, option_map, is_some, Some, None, [], ◌∷◌, ◌++◌, true, length};
ghost use Rattle.mm_types.specs.declared.moves.LineKind.TheVariants as kind;
ghost use Rattle.mm_types.specs.declared.moves.Move.TheVariants as move;
ghost use Rattle.mm_move_rules.specs.{replay_log, frame};
ghost use Rattle.mm_move_laws.specs.{three_reads, three_writes};

/// One access can begin more requests than the depth: with depth 1 three reads are in flight, and
/// no line begins until two of them have ended.
pub fn an_access_passes_the_depth()
    ensures depth { option_map (λ l. l.machine.depth) (replay_log three_reads) ≡ Some 1 }
    ensures in_flight { option_map (λ l. length l.flight) (replay_log three_reads) ≡ Some 3 }
    ensures waits { replay_log (three_reads ++ move.Got (frame 0) ∷ move.At 5 kind.Io ∷ []) ≡ None }
    ensures goes_on { is_some (replay_log
        (three_reads ++ move.Got (frame 0) ∷ move.Got (frame 1) ∷ move.At 5 kind.Io ∷ [])) ≡ true }
{}

/// So can one call, as a flush: with depth 1 three writes are in flight.
pub fn a_call_passes_the_depth()
    ensures depth { option_map (λ l. l.machine.depth) (replay_log three_writes) ≡ Some 1 }
    ensures in_flight { option_map (λ l. length l.flight) (replay_log three_writes) ≡ Some 3 }
    ensures waits { replay_log (three_writes ++ move.Wrote (frame 0) ∷ move.At 6 kind.Io ∷ []) ≡
        None }
{}
