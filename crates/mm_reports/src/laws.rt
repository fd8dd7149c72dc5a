ghost use Rattle.std.specs.Prelude.{List};
ghost use Rattle.mm_types.specs.{Move};
ghost use Rattle.mm_move_rules.specs.{FrameLife, unstarted, Replays};
ghost use Rattle.mm_replay.specs.Standing.{life as life_of};
ghost use Rattle.mm_move_classes.specs.{classes};
ghost use Rattle.mm_reports.specs.{AddUp, SumsToClasses, fault_tally};

use mm_replay::Life;

/// In each column of the table of uses the cells add up to its total, and the totals add up to the
/// frames of the machine. It does nothing.
pub fn uses_add_up(life: &Life)
    ensures { AddUp (life_of life.now) }
{
    let _known = life.counts();
}

/// The sum of each column, over pages and over processes, is the number of moves whose class is
/// counted there, and so are the numbers of the last line. It does nothing.
pub fn faults_sum_to_classes()
    ensures { (moves : List Move) (l : FrameLife) → Replays moves unstarted l
        → SumsToClasses (fault_tally moves) (classes moves) }
{}
