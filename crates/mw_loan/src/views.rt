//! Ghost types of what a thread knows of a box. Proofs use them; the program makes no value of them.
//!
//! Used by: `rule`, `loan_box`. `specs/Rule` says when a view is true: change it with a field.

/// What a thread is to a box.
#[derive(Clone, Copy)]
pub enum Role {
    /// Nothing.
    Nobody,
    /// It left the value.
    Owner,
    /// It borrowed the value.
    Borrower,
    /// It is the one that may fill the box or empty it.
    Opener,
}

/// Where a box's value is.
#[derive(Clone, Copy)]
pub enum Stage {
    /// There is none.
    Empty,
    /// It is in the box, and nobody has borrowed it yet.
    Waiting,
    /// A borrower has it.
    Borrowed,
    /// It is in the box, and a borrower gave it back.
    Returned,
    /// Its owner fills the box or empties it.
    Open,
}

/// What a thread knows of a box.
pub struct View<T> {
    /// What it is to the box.
    pub role: Role,
    /// What the owner left, if an owner or a borrower says so.
    pub left: Option<T>,
}
