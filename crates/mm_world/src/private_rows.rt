#![tactic(auto, unfolding(crate::specs::World::filled, mm_types::specs::Address::least_from, mm_types::specs::Spelling::decimal_onto))]

ghost use Rattle.std.specs.Prelude.{codes};
ghost use Rattle.mm_world.specs.{GivesAnswers, machine, smallest_machine_row, decommit_and_commit_row, rounding_row, half_in_half_out_row};
ghost use Rattle.mm_world.specs.{commit_again_row, guard_row, query_runs_row, regions_side_by_side_row, execute_and_edges_row};

/// The smallest machine: commitment is refused exactly past the limit.
pub fn smallest_machine()
    ensures { GivesAnswers (machine 6 0 1 0) (codes "ok 2") smallest_machine_row }
{}

/// A decommitted page loses its bytes.
pub fn decommit_and_commit()
    ensures { GivesAnswers (machine 8 4 1 0) (codes "ok 8") decommit_and_commit_row }
{}

/// A reservation begins on a granule and ends with the page of its last byte.
pub fn rounding()
    ensures { GivesAnswers (machine 8 8 1 0) (codes "ok 12") rounding_row }
{}

/// A commit that leaves its region is refused whole.
pub fn half_in_half_out()
    ensures { GivesAnswers (machine 8 8 1 0) (codes "ok 12") half_in_half_out_row }
{}

/// A page that is committed again keeps its bytes and gets the new protection.
pub fn commit_again()
    ensures { GivesAnswers (machine 8 8 1 0) (codes "ok 12") commit_again_row }
{}

/// A guard raises once, before the protection is looked at.
pub fn guard()
    ensures { GivesAnswers (machine 8 8 1 0) (codes "ok 12") guard_row }
{}

/// Query tells runs of like pages, and free runs to the end of the user pages.
pub fn query_runs()
    ensures { GivesAnswers (machine 8 8 1 0) (codes "ok 12") query_runs_row }
{}

/// Several regions: gaps, ranges that cross them, guards in queries, whole decommits.
pub fn regions_side_by_side()
    ensures { GivesAnswers (machine 8 8 1 0) (codes "ok 12") regions_side_by_side_row }
{}

/// Execution, and the edges of the address space.
pub fn execute_and_edges()
    ensures { GivesAnswers (machine 8 8 1 0) (codes "ok 12") execute_and_edges_row }
{}
