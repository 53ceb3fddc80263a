// Why the rounds that give a graph its rows end.
/// Why rounds end.
#[derive(Clone, Copy, PartialEq, Eq)]
pub enum Stop {
    /// No match is unmet.
    Quiet,
    /// The rounds asked for are done.
    Rounds,
    /// Another round might pass the limit on rows.
    Full,
}
