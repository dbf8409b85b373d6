// Notes of where subterms of the heading stand.

// Where a subterm of the heading begins, and how many nodes it has.
#[derive(Clone, Copy)]
pub struct Note {
    pub start: u16,
    pub size: u16,
}
