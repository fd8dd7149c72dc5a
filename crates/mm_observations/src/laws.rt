ghost use Rattle.std.specs.Prelude.{◌≡◌, map, Ok, true, List, ℕ};
ghost use Rattle.std.specs.List.{list_all};
ghost use Rattle.mm_move_classes.specs.{is_plain_in_html};
ghost use Rattle.mm_types.specs.{Text};
ghost use Rattle.mm_observations.specs.{packed, run_lines, packed_beside, packed_second, worked_rows, worked_data, more_rows, more_data, bad_rows};
ghost use Rattle.mm_observations.specs.{second_refused};

/// Rows are packed as a page's data has them; a row that is not good is told by its number. It
/// does nothing.
pub fn worked_rows_are_packed()
    ensures worked { packed_beside worked_rows ≡ Ok worked_data }
    ensures more { packed_beside more_rows ≡ Ok more_data }
    ensures refused { map packed_second bad_rows ≡ second_refused }
{}

/// No byte of packed rows is `<` or `&`, so they can stand in a page of HTML as they are. It does
/// nothing.
pub fn packed_rows_are_plain()
    ensures { (script answers : List Text) (bytes text : Text)
        → packed (run_lines script answers) bytes ≡ Ok text
        → list_all is_plain_in_html text ≡ true }
{}
