#![tactic(auto, unfolding(crate::specs::World::filled, mm_types::specs::Address::least_from, mm_types::specs::Spelling::decimal_onto))]

ghost use Rattle.std.specs.Prelude.{codes};
ghost use Rattle.mm_world.specs.{GivesAnswers, machine, ends_of_processes_row, what_an_exit_ends_row, fail_lines_row, paging_file_grows_row};
ghost use Rattle.mm_world.specs.{most_slots_row, paging_device_refuses_to_grow_row};

/// Sixty-four processes are made, and no number is given again.
pub fn ends_of_processes()
    ensures { GivesAnswers (machine 8 8 1 0) (codes "ok 12") ends_of_processes_row }
{}

/// What the exit of a process ends, and what lives on by another.
pub fn what_an_exit_ends()
    ensures { GivesAnswers (machine 8 8 1 1) (codes "ok 12") what_an_exit_ends_row }
{}

/// Sixty-four `fail` lines are taken.
pub fn fail_lines()
    ensures { GivesAnswers (machine 8 8 1 0) (codes "ok 12") fail_lines_row }
{}

/// The paging file grows, up to its most slots.
pub fn paging_file_grows()
    ensures { GivesAnswers (machine 6 0 1 0) (codes "ok 2") paging_file_grows_row }
{}

/// The paging file grows to its most slots and not further.
pub fn most_slots()
    ensures { GivesAnswers (machine 6 0 1 0) (codes "ok 2") most_slots_row }
{}

/// A paging device that refuses to grow.
pub fn paging_device_refuses_to_grow()
    ensures { GivesAnswers (machine 6 0 1 0) (codes "ok 2") paging_device_refuses_to_grow_row }
{}
