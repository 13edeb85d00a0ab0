//! Why a line is not answered: it is no call, or its call stops.
ghost use Rattle.zimborae.specs.declared.fault.Fault.TheVariants.{Stopped, Unread};
ghost use Rattle.std.specs.Prelude.{◌≡◌};

use super::stop::Stop;
use super::why::Why;
use thiserror::Error;

/// Either of the two.
#[derive(Clone, Copy, Debug, Error)]
pub enum Fault<'a> {
    #[error(transparent)]
    Unread(Why<'a>),
    #[error(transparent)]
    Stopped(Stop),
}

// Both conversions are written by hand: a derived `From` has no contract, and these tell which case `?` makes.
impl<'a> From<Why<'a>> for Fault<'a> {
    ghost from_gives = { λ e r. r ≡ Unread e };

    fn from(why: Why<'a>) -> Fault<'a> {
        Fault::Unread(why)
    }
}

impl<'a> From<Stop> for Fault<'a> {
    ghost from_gives = { λ e r. r ≡ Stopped e };

    fn from(stop: Stop) -> Fault<'a> {
        Fault::Stopped(stop)
    }
}
