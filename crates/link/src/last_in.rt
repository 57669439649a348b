// Last in, first out.
use crate::row::Row;

// In places that the caller lends; it takes the newest message.
pub type LastIn<'a, M> = Row<'a, M, true>;
