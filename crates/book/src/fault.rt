//! The faults of a call: a call looks for them in a fixed order, and is refused by the first that is met.
ghost use Rattle.std.specs.Fn.{FnReturnsAt};
ghost use Rattle.std.specs.Option.{ForSome, option_map};
ghost use Rattle.std.specs.Prelude.{◌≡◌, ◌^◌, ◌<◌, ◌+◌, Bool, [], ◌∷◌, length};
ghost use Rattle.book.specs.Fault.{AnswersAre, each, fault, judged, placed, replied};

use problems::refusal::{Refusal, Refused};

// Refuses at the index, where there is one; places are counted from 1. A place fits, as each of these asks, so the
// casts keep it.
pub(crate) fn refuse_at(index: Option<usize>, why: Refusal) -> Result<(), Refused>
    requires { ForSome index (λ i. i + 1 < 2 ^ 63) }
    ensures { result ≡ replied tt (option_map (placed why) index) }
{
    index.map_or(Ok(()), |i| {
        Err(Refused {
            why,
            place: i as i64 + 1,
        })
    })
}

// Refuses the first item that meets the test.
pub(crate) fn refuse_first<T, F: Fn(&T) -> bool>(
    items: &[T],
    met: F,
    why: Refusal,
) -> Result<(), Refused>
    requires few { length items.now < 2 ^ 63 }
    requires callable { F.IsAlwaysCallable met }
    ensures { (bad : T → Bool) → AnswersAre (FnReturnsAt F.Fn met) bad items.now → result ≡ judged (each bad why 1 items.now) }
{
    refuse_at(items.iter().position(met), why)
}

// Refuses where the fault is met.
pub(crate) fn refuse_if(met: bool, why: Refusal, place: usize) -> Result<(), Refused>
    requires { place < 2 ^ 63 }
    ensures { result ≡ judged (fault met why place ∷ []) }
{
    if met {
        return Err(Refused {
            why,
            place: place as i64,
        });
    }
    Ok(())
}
