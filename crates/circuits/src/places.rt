// Which places of lent tables count, and which of them are in use.
ghost use Rattle.std.specs.Prelude.{◌≡◌, take};
ghost use Rattle.account.specs.Refusals.{capacity};
ghost use Rattle.tables.specs.Held.{counted};

use tables::{Counts, Entry};

// Of a longer table only this many places count.
pub const LIMIT: usize = 1_048_576;

// How many of a table's places count.
pub fn capacity(len: usize) -> usize
    ensures { result ≡ capacity len }
{
    len.min(LIMIT)
}

// The first `count` of the places that count, or all of these where they are fewer.
pub fn in_use<T>(count: usize, places: &[T]) -> &[T]
    ensures { result.now ≡ take count (counted places.now) }
{
    &places[..count.min(capacity(places.len()))]
}

// The entries in use.
pub fn entries_of<'a>(counts: &Counts, index: &'a [Entry]) -> &'a [Entry]
    ensures { result.now ≡ take counts.now.entries (counted index.now) }
{
    in_use(counts.entries, index)
}
