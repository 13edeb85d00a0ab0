//! Bytes as text: two digits a byte, in lower case.
ghost use Rattle.std.specs.Prelude.{◌≡◌, ◌/◌, ◌%◌, ◌<◌};
ghost use Rattle.std.specs.Char.{digit_char};

use std::fmt;

/// Shows `-` where there is no byte.
#[derive(Clone, Copy)]
pub struct Hex<'a>(pub &'a [u8]);

fn digit(value: u8) -> char
    requires { value < 16 }
    ensures value { result ≡ digit_char value }
{
    char::from_digit(u32::from(value), 16).unwrap()
}

// The two digits of a byte. A contract tells them; none tells what `{byte:02x}` writes.
fn digits(byte: u8) -> (char, char)
    ensures first { result.0 ≡ digit_char (byte / 16) }
    ensures second { result.1 ≡ digit_char (byte % 16) }
{
    (digit(byte / 16), digit(byte % 16))
}

impl fmt::Display for Hex<'_> {
    fn fmt<W: fmt::Write>(&self, f: &mut fmt::Formatter<W>) -> fmt::Result {
        if self.0.is_empty() {
            return f.write_str("-");
        }
        for byte in self.0 {
            let (high, low) = digits(*byte);
            f.write_char(high)?;
            f.write_char(low)?;
        }
        Ok(())
    }
}
