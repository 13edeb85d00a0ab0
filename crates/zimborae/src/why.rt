//! Why a line is no call: what is wrong, with the word that is.
ghost use Rattle.std.specs.Prelude.{◌≡◌, ◌≤◌, length, take};

use std::alloc::AllocError;
use std::fmt;
use thiserror::Error;

// A longer word is cut when it is shown.
const SHOWN: usize = 40;

/// Why a line is no call.
#[derive(Clone, Copy, Debug, Error)]
pub enum Why<'a> {
    #[error("the line is not UTF-8")]
    NotText,
    #[error("{} is not a call", Quoted(.0))]
    NoCall(&'a str),
    #[error("{} is not a number", Quoted(.0))]
    NoNumber(&'a str),
    #[error("{} is neither a number nor \"-\"", Quoted(.0))]
    NoEnd(&'a str),
    #[error("{} is not a tester", Quoted(.0))]
    NoTester(&'a str),
    #[error("{} is one word too many", Quoted(.0))]
    TooMany(&'a str),
    /// A call, and the words that it lacks.
    #[error("{0:?} wants {1}")]
    TooFew(&'static str, &'static str),
    #[error("no memory is left for the line")]
    NoMemory(#[from] AllocError),
}

// The front of the word, as much of it as is shown.
fn cut(word: &str) -> &str
    ensures bound { length result.now ≤ 40 }
    ensures value { result.now ≡ take (length result.now) word.now }
{
    let (front, _) = word.split_at(word.floor_char_boundary(SHOWN));
    front
}

// A word in quotes, with dots after them where it is cut.
#[derive(Clone, Copy)]
struct Quoted<'a>(&'a str);

impl fmt::Display for Quoted<'_> {
    fn fmt<W: fmt::Write>(&self, f: &mut fmt::Formatter<W>) -> fmt::Result {
        let shown = cut(self.0);
        write!(f, "{shown:?}")?;
        if shown.len() < self.0.len() {
            f.write_str("...")?;
        }
        Ok(())
    }
}
