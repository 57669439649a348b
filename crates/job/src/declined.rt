// What a call hands back where it declines.
use crate::refusal::Refusal;

// A value that the call was given to use up, and why it was not used up.
#[derive(Drop)]
pub struct Declined<T> {
    pub back: T,
    pub refusal: Refusal,
}
