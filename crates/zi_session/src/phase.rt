//! The phase of a session: where it is in its list of calls.
//! The number of its temporary name and of the calls done stand beside it in the session.
//! After a fault it also says which temporary name the failed call named, and whether an entry of that name was left behind.

/// Where a session is in its list of calls. The first seven name the call that comes next.
#[derive(Clone, Copy, Debug, PartialEq, Eq)]
pub(crate) enum Phase {
    /// A temporary entry is to be made.
    Makes,
    /// The entry is to be filled.
    Fills,
    /// The entry is to be settled.
    Settles,
    /// The entry is to get the digest name.
    Renames,
    /// The rename is to be settled.
    Stores,
    /// The name was there: the entry is to be removed.
    Removes,
    /// The removal is to be settled.
    Leaves,
    /// It ended: the tree was stored.
    IsStored,
    /// It ended: the name was there already.
    IsPresent,
    /// It ended: every temporary name was taken.
    IsCrowded,
    /// It ended by a fault: its temporary entry wasn't made.
    IsUnmade,
    /// It ended by a fault, and its temporary entry was left behind.
    IsStuck,
    /// It ended by a fault of a call that names no temporary entry, and has none.
    IsFaulty,
}
