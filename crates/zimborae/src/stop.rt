//! Why a call that was read has no answer of its own.
use problems::refusal::Refused;
use thiserror::Error;

/// A refusal, or a call whose time has not come.
#[derive(Clone, Copy, Debug, Error)]
pub enum Stop {
    #[error("refused {number} {place}", number = .0.number(), place = .0.place)]
    Refused(Refused),
    #[error("there is no draft: begin one by \"new\"")]
    NoDraft,
    #[error("nothing is open: open the draft by \"open\"")]
    NothingOpen,
}
