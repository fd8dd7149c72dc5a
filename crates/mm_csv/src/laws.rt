ghost use Rattle.std.specs.Prelude.{◌≡◌, List, ℕ};
ghost use Rattle.mm_csv.specs.{AreSome, csv_text, csv_rows_of};

/// A text by the rule of csv is read again as the rows that were written: the fields of each, byte
/// by byte. It does nothing.
pub fn rows_are_read_again()
    ensures { (rows : List (List (List ℕ))) → AreSome rows → csv_rows_of (csv_text rows) ≡ rows }
{}
