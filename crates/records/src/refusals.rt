// A refusal gives number, table (0 none, 1 holdings, 2 placement, 3 claims, 4 the day's fills, 5 the table of
// roots, 6 the list of symbols) and place. They stay numbers: the documents and every contract say a refusal by them.
#[derive(Clone, Copy, PartialEq, Eq)]
pub struct Refusal {
    pub number: u8,
    pub table: u8,
    pub place: usize,
}
