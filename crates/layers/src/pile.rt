//! Piles: up to four divisor layers over any tester, as many as the caller asks for when it runs.
ghost use Rattle.layers.specs.Divisor.{divisor_layer};
ghost use Rattle.layers.specs.Pile.{over, pile_meaning, piled};
ghost use Rattle.std.specs.Option.{option_map};
ghost use Rattle.std.specs.Prelude.{◌≡◌, if◌then◌else◌, Some, None, nat_le};
ghost use Rattle.layers.specs.declared.pile.Over.TheVariants.{Bare, Layered};
ghost use Rattle.layers.specs.Divisors.{divisor_laws};

use super::divisor::Divisor;
use problems::problem::Problem;
use testers::answer::Answer;
use testers::tester::Tester;

/// A tester, bare or under one divisor layer.
// Which of the two it is, is known only when the program runs; a boxed tester would need the heap.
#[derive(Drop)]
pub enum Over<T> {
    Bare(T),
    Layered(Divisor<T>),
}

impl<T: Tester> Tester for Over<T> {
    ghost meaning = { over T.Tester.meaning };

    ghost lawful = { elim [
      | Bare t ↦ T.Tester.lawful t
      | Layered d ↦ divisor_laws (T.Tester.meaning d.below) (T.Tester.lawful d.below)
    ] };

    fn test(&mut self, problem: &Problem) -> Answer {
        match self {
            Over::Bare(tester) => tester.test(problem),
            Over::Layered(divisor) => divisor.test(problem),
        }
    }
}

/// At most so many layers in a pile.
pub const MOST_LAYERS: usize = 4;

/// Four places over a tester, each with or without a layer.
pub type Pile<B> = Over<Over<Over<Over<B>>>>;

// The tester, under one layer if so asked.
fn laid<T: Tester>(below: T, layered: bool) -> Over<T>
    ensures { over T.Tester.meaning result ≡ (if layered then divisor_layer (T.Tester.meaning below) else T.Tester.meaning below) }
{
    if layered {
        Over::Layered(Divisor { below })
    } else {
        Over::Bare(below)
    }
}

/// So many divisor layers over the tester; none where more than four are asked for.
pub fn pile<B: Tester + Drop>(bottom: B, layers: usize) -> Option<Pile<B>>
    ensures value { option_map (pile_meaning B.Tester.meaning) result ≡ (if nat_le layers 4 then Some (piled layers (B.Tester.meaning bottom)) else None) }
{
    if layers > MOST_LAYERS {
        return None;
    }
    let one = laid(bottom, layers > 0);
    let two = laid(one, layers > 1);
    let three = laid(two, layers > 2);
    Some(laid(three, layers > 3))
}
