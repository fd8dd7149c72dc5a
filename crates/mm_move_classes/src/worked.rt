ghost use Rattle.std.specs.Prelude.{◌≡◌, ◌++◌, codes};
ghost use Rattle.mm_move_rules.specs.{rewritten_log, smallest_set_log};
ghost use Rattle.mm_move_classes.specs.{classes, rewritten_classes, smallest_set_classes};

/// The classes of the 24 moves of a page that is rewritten while its write is in flight.
pub fn rewritten_page_is_classed()
    ensures { classes rewritten_log ≡ rewritten_classes }
{}

/// The classes of the 14 moves of the smallest working set, whose only page goes for the next.
pub fn smallest_set_is_classed()
    ensures { classes smallest_set_log ≡ smallest_set_classes }
{}
