#![tactic(auto, unfolding(crate::specs::World::filled, mm_types::specs::Address::least_from, mm_types::specs::Spelling::decimal_onto))]

ghost use Rattle.std.specs.Prelude.{codes};
ghost use Rattle.mm_world.specs.{GivesAnswers, machine, shared_section_trimmed_row, far_past_the_frames_row, collided_fault_and_full_queue_row};
ghost use Rattle.mm_world.specs.{given_up_while_read_row, rewritten_while_written_row, failing_writes_row, reads_that_fail_row, short_of_frames_row};
ghost use Rattle.mm_world.specs.{guard_at_a_resume_row, plain_access_finishes_a_read_row, oldest_first_row};

/// A shared section, trimmed and written out.
pub fn shared_section_trimmed()
    ensures { GivesAnswers (machine 8 8 1 0) (codes "ok 12") shared_section_trimmed_row }
{}

/// Sixty pages on eight frames.
pub fn far_past_the_frames()
    ensures { GivesAnswers (machine 8 64 1 0) (codes "ok 68") far_past_the_frames_row }
{}

/// Two threads wait for one read, and a third for the end of a request.
pub fn collided_fault_and_full_queue()
    ensures { GivesAnswers (machine 8 8 1 2) (codes "ok 12") collided_fault_and_full_queue_row }
{}

/// A page that is given up while its read is in flight.
pub fn given_up_while_read()
    ensures { GivesAnswers (machine 8 8 1 0) (codes "ok 12") given_up_while_read_row }
{}

/// A page that is rewritten while its write is in flight.
pub fn rewritten_while_written()
    ensures { GivesAnswers (machine 8 8 1 0) (codes "ok 12") rewritten_while_written_row }
{}

/// An access fails only where no write of its last search succeeded.
pub fn failing_writes()
    ensures { GivesAnswers (machine 8 8 1 0) (codes "ok 12") failing_writes_row }
{}

/// An access fails where the read of its page failed.
pub fn reads_that_fail()
    ensures { GivesAnswers (machine 8 8 1 1) (codes "ok 12") reads_that_fail_row }
{}

/// A thread waits for a frame only where its access needs one: a copy does, beside the page that it
/// copies.
pub fn short_of_frames()
    ensures { GivesAnswers (machine 8 8 1 1) (codes "ok 12") short_of_frames_row }
{}

/// A kept access is decided in the world of its resume.
pub fn guard_at_a_resume()
    ensures { GivesAnswers (machine 8 8 1 1) (codes "ok 12") guard_at_a_resume_row }
{}

/// A plain access finishes a read that a thread began.
pub fn plain_access_finishes_a_read()
    ensures { GivesAnswers (machine 8 8 1 1) (codes "ok 12") plain_access_finishes_a_read_row }
{}

/// Lines for the store alone change no answer.
pub fn oldest_first()
    ensures { GivesAnswers (machine 8 8 1 0) (codes "ok 12") oldest_first_row }
{}
