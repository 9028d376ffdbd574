// Definitions alone: the courses that a power-up can take, and their lists of operations. They stand in specs/, Lists first.
#![tactic(auto)]

// The course that a power-up takes.
#[derive(Clone, Copy, PartialEq, Eq)]
pub enum Course {
    // marks or scratch's image ok are damaged
    Damage,
    // the trailer exchange is under way: from its third line on; whether scratch has image ok
    FromLineThree(bool),
    // the data exchange is under way, with this many marks written
    Resume(usize),
    // the exchanges
    Test,
    Permanent,
    Revert,
    // an exchange was asked for, and the image in slot 1 is rejected
    Clear,
    Nothing,
}

// What was done: the name of the list in force.
#[derive(Clone, Copy, PartialEq, Eq)]
pub enum Done {
    None,
    Test,
    Permanent,
    Revert,
    Resumed,
    Cleared,
}
