// The text at a fault: the part of the query or of the table that a refusal's place points at, lent on and not copied.
#![tactic(auto)]

ghost use Rattle.std.specs.Prelude.{◌≡◌};
ghost use Rattle.fault_text.specs.FaultText.{shows_table, shows_query, unless_past, shown_of, fault_text};

// Which of the two texts is shown.
#[derive(Clone, Copy, PartialEq, Eq)]
pub enum Shown {
    Query,
    Table,
}

fn shows_table(number: usize) -> bool
    ensures { result ≡ shows_table number }
{
    matches!(number, 2 | 3)
}

fn shows_query(number: usize) -> bool
    ensures { result ≡ shows_query number }
{
    matches!(number, 1..=25)
}

fn unless_past(place: usize, length: usize, text: Option<Shown>) -> Option<Shown>
    ensures { result ≡ unless_past place length text }
{
    if length < place {
        return None;
    }
    text
}

// The choice needs the lengths of the texts alone.
#[tactic(auto, unfolding(crate::specs::FaultText::shown_of))]
pub fn shown_of(
    query_length: usize,
    table_length: usize,
    number: usize,
    place: usize,
) -> Option<Shown>
    ensures { result ≡ shown_of query_length table_length number place }
{
    if shows_table(number) {
        return unless_past(place, table_length, Some(Shown::Table));
    }
    if shows_query(number) {
        return unless_past(place, query_length, Some(Shown::Query));
    }
    None
}

// What a refusal with this number and place shows, of the query or of the table that were refused.
#[tactic(auto, using(crate::proofs::Laws::query_inside, crate::proofs::Laws::table_inside, crate::proofs::Laws::nothing_shown, crate::proofs::Laws::query_shown, crate::proofs::Laws::table_shown))]
pub fn fault_text<'a>(query: &'a [u8], table: &'a [u8], number: usize, place: usize) -> &'a [u8]
    ensures { result.now ≡ fault_text query.now table.now number place }
{
    match shown_of(query.len(), table.len(), number, place) {
        None => &query[..0],
        Some(Shown::Query) => &query[place..],
        Some(Shown::Table) => &table[place..],
    }
}
