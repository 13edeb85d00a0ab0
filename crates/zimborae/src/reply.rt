//! What a call is answered.
use super::shown::Shown;
use std::fmt;

/// The answer of a call that is not refused.
#[derive(Clone, Copy)]
pub enum Reply<'a> {
    Done,
    /// The number of the row's quantity.
    Row(usize),
    Found(Shown<'a>),
}

impl fmt::Display for Reply<'_> {
    fn fmt<W: fmt::Write>(&self, f: &mut fmt::Formatter<W>) -> fmt::Result {
        match self {
            Reply::Done => f.write_str("ok"),
            Reply::Row(quantity) => write!(f, "ok {quantity}"),
            Reply::Found(shown) => write!(f, "{shown}"),
        }
    }
}
