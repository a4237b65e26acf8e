//! What a replica does with a copy that a peer sends it.

ghost use Rattle.std.specs.Prelude.{◌≡◌};
ghost use Rattle.peer_copy.specs.Copying.{taking_of};

/// What becomes of a copied entry.
#[derive(Clone, Copy, Debug, PartialEq, Eq)]
pub enum Taking {
    /// It is the next one, and goes to the end of the list.
    Put,
    /// The list has an entry of that offset already.
    Have,
    /// Entries before it are missing.
    Gap,
}

/// What becomes of an entry that is copied from an offset to a list of so many entries.
pub fn take(offset: u32, len: u32) -> Taking
    ensures { result ≡ taking_of offset len }
{
    if offset == len {
        return Taking::Put;
    }
    if offset < len {
        return Taking::Have;
    }
    Taking::Gap
}
