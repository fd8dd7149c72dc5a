#![tactic(auto, unfolding(crate::specs::World::filled, mm_types::specs::Address::least_from, mm_types::specs::Spelling::decimal_onto))]

ghost use Rattle.std.specs.Prelude.{codes};
ghost use Rattle.mm_world.specs.{GivesAnswers, machine, copy_view_refused_row, copy_view_charged_whole_row, copy_on_write_row, reserve_section_row};
ghost use Rattle.mm_world.specs.{reserve_section_read_view_row, handles_names_views_row, refusals_row, files_and_flushing_row};
ghost use Rattle.mm_world.specs.{views_at_an_offset_row, protections_by_view_row, marked_page_row, mark_refused_row, marks_last_row};

/// A copy view whose pages pass the limit is refused.
pub fn copy_view_refused()
    ensures { GivesAnswers (machine 8 11 1 16) (codes "ok 15") copy_view_refused_row }
{}

/// A copy view is charged whole when it is mapped, and nothing when it is written.
pub fn copy_view_charged_whole()
    ensures { GivesAnswers (machine 8 12 1 16) (codes "ok 16") copy_view_charged_whole_row }
{}

/// A write to a copy view reaches neither the file nor another view.
pub fn copy_on_write()
    ensures { GivesAnswers (machine 8 8 1 4) (codes "ok 12") copy_on_write_row }
{}

/// A page of a reserve section is charged once, however many views commit it.
pub fn reserve_section()
    ensures { GivesAnswers (machine 8 8 1 0) (codes "ok 12") reserve_section_row }
{}

/// A read view takes no protection that permits to write.
pub fn reserve_section_read_view()
    ensures { GivesAnswers (machine 8 8 1 0) (codes "ok 12") reserve_section_read_view_row }
{}

/// A section lives while a handle or a view refers to it, its name while a handle does.
pub fn handles_names_views()
    ensures { GivesAnswers (machine 8 8 1 0) (codes "ok 12") handles_names_views_row }
{}

/// Refusals of calls on private memory and on views.
pub fn refusals()
    ensures { GivesAnswers (machine 8 8 1 0) (codes "ok 12") refusals_row }
{}

/// Files and flushing, with writes that fail.
pub fn files_and_flushing()
    ensures { GivesAnswers (machine 8 8 1 2) (codes "ok 12") files_and_flushing_row }
{}

/// Views of a part of a file, by sections that share its pages, and names that last as long as
/// handles.
pub fn views_at_an_offset()
    ensures { GivesAnswers (machine 8 24 1 20) (codes "ok 28") views_at_an_offset_row }
{}

/// A commit in a view changes the protection of that view alone.
pub fn protections_by_view()
    ensures { GivesAnswers (machine 8 8 1 0) (codes "ok 12") protections_by_view_row }
{}

/// Single pages of a shared view become copy on write.
pub fn marked_page()
    ensures { GivesAnswers (machine 8 8 1 0) (codes "ok 12") marked_page_row }
{}

/// A mark past the limit is refused.
pub fn mark_refused()
    ensures { GivesAnswers (machine 6 0 1 0) (codes "ok 2") mark_refused_row }
{}

/// A mark lasts whatever protection the page gets, and READWRITE of a marked page means a copy.
pub fn marks_last()
    ensures { GivesAnswers (machine 8 8 1 1) (codes "ok 12") marks_last_row }
{}
