//! How a Scope stands.

ghost use Rattle.std.specs.Prelude.{◌≡◌};
ghost use Rattle.screen.specs.Statuses.{status_of, is_unused};

/// How a Scope stands, with the number that its lent row keeps.
#[derive(Clone, Copy, Debug, PartialEq, Eq)]
pub enum Status {
    /// No node opened it yet.
    Unused = 0,
    /// A node of the tree opened it.
    Standing = 1,
    /// A Merge joined it to the Scope before it.
    Joined = 2,
    /// A Merge put its content in its place.
    Flattened = 3,
}

impl From<u8> for Status {
    ghost from_gives = { λ n status. status ≡ status_of n };

    /// The status of a number 0 to 3.
    fn from(number: u8) -> Status {
        match number {
            0 => Status::Unused,
            1 => Status::Standing,
            2 => Status::Joined,
            _ => Status::Flattened,
        }
    }
}

impl Status {
    /// Whether no node opened it yet.
    pub fn is_unused(self) -> bool
        ensures { result ≡ is_unused self }
    {
        matches!(self, Status::Unused)
    }
}
