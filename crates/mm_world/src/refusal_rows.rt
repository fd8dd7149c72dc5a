#![tactic(auto, unfolding(crate::specs::World::filled, mm_types::specs::Address::least_from, mm_types::specs::Spelling::decimal_onto))]

ghost use Rattle.std.specs.Prelude.{codes};
ghost use Rattle.mm_world.specs.{GivesAnswers, machine, order_of_refusals_row};

/// Of two refusals that stand at once the earlier one of the call is answered.
pub fn order_of_refusals()
    ensures { GivesAnswers (machine 8 8 1 2) (codes "ok 12") order_of_refusals_row }
{}
