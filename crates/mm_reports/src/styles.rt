/// How a table is written.
#[derive(Clone, Copy, PartialEq, Eq)]
pub enum Style {
    /// In columns, for a reader.
    Columns,
    /// By the rule of csv, for a program.
    Csv,
}
