//! The words of a line: numbers and ends.
ghost use Rattle.std.specs.Prelude.{◌≡◌, IfErr};
ghost use Rattle.std.specs.Result.{result_ok};
ghost use Rattle.zimborae.specs.Words.{WritesEnd, WritesNumber};
ghost use Rattle.zimborae.specs.declared.why.Why.TheVariants.{NoEnd, NoNumber};

use super::why::Why;

/// The number that the word writes: digits, with a minus before them or none.
pub fn number(word: &str) -> Result<i64, Why<'_>>
    ensures value { WritesNumber word.now (result_ok result) }
    ensures error { IfErr result (λ why. why ≡ NoNumber word.entry) }
{
    let written = match word.as_bytes() {
        [b'+', ..] => None,
        _ => word.parse::<i64>().ok(),
    };
    written.ok_or(Why::NoNumber(word))
}

/// The end that the word writes: a number, or `-` for an absent end.
pub fn end(word: &str) -> Result<Option<i64>, Why<'_>>
    ensures value { WritesEnd word.now (result_ok result) }
    ensures error { IfErr result (λ why. why ≡ NoEnd word.entry) }
{
    if word == "-" {
        return Ok(None);
    }
    number(word).map(Some).map_err(|_| Why::NoEnd(word))
}
