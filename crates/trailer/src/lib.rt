// Definitions alone: what a trailer says. They stand in specs/, Trailer first.
#![tactic(auto)]

// What stands in the place of the magic words.
#[derive(Clone, Copy, PartialEq, Eq)]
pub enum Magic {
    Good,
    Unset,
    Bad,
}

// What one unit says as a mark.
#[derive(Clone, Copy, PartialEq, Eq)]
pub enum Mark {
    Unset,
    Value(u8),
    Bad,
}
