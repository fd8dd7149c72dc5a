ghost use Rattle.std.specs.Prelude.{◌≡◌, None, true};
ghost use Rattle.mm_move_rules.specs.{rewritten_log, smallest_set_log};
ghost use Rattle.mm_transcripts.specs.{transcript, rewritten_rows, smallest_set_rows};

#[tactic(auto, unfolding(mm_types::specs::Spelling::decimal_onto))]
/// The transcript of a page that is rewritten while its write is in flight.
pub fn rewritten_page_is_told()
    ensures { transcript None None true rewritten_log ≡ rewritten_rows }
{}

#[tactic(auto, unfolding(mm_types::specs::Spelling::decimal_onto))]
/// The transcript of the smallest working set, whose only page goes for the next.
pub fn smallest_set_is_told()
    ensures { transcript None None true smallest_set_log ≡ smallest_set_rows }
{}
