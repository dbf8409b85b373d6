// Why a call is refused: a case for each number of the documents' list, with the place where the number has one of its own.
#![tactic(auto)]

ghost use Rattle.std.specs.Prelude.{◌≡◌};
ghost use Rattle.meaning.specs.Refusals.{number_of, place_of};
ghost use Rattle.refusal.specs.Told.{told};

#[derive(Clone, Copy)]
pub enum Refusal {
    // the bytes are not laid out as a table
    Layout,
    // too few or too many symbols, or too many pairs
    Counts,
    // this symbol's arity is too high
    Arity(u16),
    // this pair may not be listed where it stands
    Pair(u16),
    // the cut is no degree above 0
    Cut,
    // the pattern, or the first of two headings, has a fault at this node
    Pattern(u16),
    // the heading, or the second of two, has a fault at this node
    Heading(u16),
    // a lent buffer is too short
    Room,
    // the pattern's symbol at this node is not near enough to the one that faces it
    Clash(u16),
    // no term can stand for this variable
    NoForm(u16),
    // the question file is misshapen
    Misshapen,
    // of two numbers, the one at this place is no symbol
    NoSymbol(u16),
    // no such symbol or pair
    Absent,
}

// What a match that is not refused says.
#[derive(Clone, Copy)]
pub struct Degrees {
    pub lowest: u16,
    pub highest: u16,
}

impl Refusal {
    // The number on that list.
    pub fn number(self) -> u16
        ensures { result ≡ number_of (told self) }
    {
        match self {
            Refusal::Layout => 1,
            Refusal::Counts => 2,
            Refusal::Arity(_) => 3,
            Refusal::Pair(_) => 4,
            Refusal::Cut => 5,
            Refusal::Pattern(_) => 6,
            Refusal::Heading(_) => 7,
            Refusal::Room => 8,
            Refusal::Clash(_) => 9,
            Refusal::NoForm(_) => 10,
            Refusal::Misshapen => 12,
            Refusal::NoSymbol(_) => 13,
            Refusal::Absent => 14,
        }
    }

    // The place that goes with it, 0 where the number has none of its own.
    pub fn place(self) -> u16
        ensures { result ≡ place_of (told self) }
    {
        match self {
            Refusal::Arity(place)
            | Refusal::Pair(place)
            | Refusal::Pattern(place)
            | Refusal::Heading(place)
            | Refusal::Clash(place)
            | Refusal::NoForm(place)
            | Refusal::NoSymbol(place) => place,
            _ => 0,
        }
    }
}
