// First in, first out.
use crate::row::Row;

// In places that the caller lends; it takes the oldest message.
pub type FirstIn<'a, M> = Row<'a, M, false>;
