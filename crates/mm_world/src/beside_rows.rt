#![tactic(auto, unfolding(crate::specs::World::filled, mm_types::specs::Address::least_from, mm_types::specs::Spelling::decimal_onto))]

ghost use Rattle.std.specs.Prelude.{codes};
ghost use Rattle.mm_world.specs.{GivesAnswers, machine, write_watch_row, watch_and_guard_row, watch_refusals_and_ends_row, stack_grows_row};
ghost use Rattle.mm_world.specs.{stack_out_of_commitment_row};

/// Written pages of a watched region, whatever was trimmed between.
pub fn write_watch()
    ensures { GivesAnswers (machine 8 8 1 0) (codes "ok 12") write_watch_row }
{}

/// A write that raises writes nothing, and a release ends the watch.
pub fn watch_and_guard()
    ensures { GivesAnswers (machine 8 8 1 0) (codes "ok 12") watch_and_guard_row }
{}

/// Refusals of write watch, what begun accesses write, and what ends a watch.
pub fn watch_refusals_and_ends()
    ensures { GivesAnswers (machine 8 8 1 0) (codes "ok 12") watch_refusals_and_ends_row }
{}

/// A stack grows through its guard page, and never into its base page.
pub fn stack_grows()
    ensures { GivesAnswers (machine 8 16 1 0) (codes "ok 20") stack_grows_row }
{}

/// A stack stops growing where no commitment is left, and ends with its region.
pub fn stack_out_of_commitment()
    ensures { GivesAnswers (machine 8 8 1 0) (codes "ok 12") stack_out_of_commitment_row }
{}
