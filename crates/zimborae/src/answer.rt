//! Answering a call at the desk.
ghost use Rattle.std.specs.Prelude.{◌≡◌, ◌≤◌, length};
ghost use Rattle.zimborae.specs.Answer.{desk_after, reply_to, telling, told_by};
ghost use Rattle.zimborae.specs.Desk.{standing};

use super::call::{Call, Pile};
use super::desk::Desk;
use super::reply::Reply;
use super::stop::Stop;
use search::open_split::OpenSplit;

/// The answer of the call. What is lent for a search has room for the largest budget.
// Two buffers and not one struct: the answer keeps the record and not the path, and the check refuses a
// struct of two `&mut` of which the result keeps one.
pub(crate) fn answer<'a>(
    desk: &mut Desk,
    call: &Call,
    bytes: &'a mut [u8],
    path: &mut [OpenSplit],
) -> Result<Reply<'a>, Stop>
    requires wide { 1000000 ≤ length bytes.old }
    requires deep { 10000 ≤ length path.old }
    ensures value { telling told_by result ≡ reply_to (standing desk.old) call.now }
    ensures after { standing desk.new ≡ desk_after (standing desk.old) call.now }
{
    match call {
        Call::New { n, ends } => {
            desk.begin(*n, ends.as_slice())?;
            Ok(Reply::Done)
        }
        Call::Row { coefs, ends } => Ok(Reply::Row(desk.add_row(coefs.as_slice(), *ends)?)),
        Call::Open => {
            desk.open()?;
            Ok(Reply::Done)
        }
        Call::Ask {
            tester: Pile::Halving,
            budget,
        } => Ok(Reply::Found(desk.ask(*budget, bytes, path)?)),
    }
}
