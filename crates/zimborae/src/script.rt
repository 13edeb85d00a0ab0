//! A run from its first line to its last: each line that is a call is answered by a line, in their order.
ghost use Rattle.std.specs.Prelude.{◌≤◌, length};
ghost use Rattle.zimborae.specs.Desk.{standing};
ghost use Rattle.zimborae.specs.Line.{KeptUnlessRead};

use super::answer::answer;
use super::call::{Call, read};
use super::desk::Desk;
use super::fault::Fault;
use super::reply::Reply;
use super::stop::Stop;
use super::why::Why;
use lent::entry::Entry;
use search::open_split::OpenSplit;
use search::search_box::{BOX_BYTES, MOST_BOXES};
use std::alloc::Global;
use std::io;
use std::io::{BufRead, BufReader, Read, Write};

// The room of a record and of a path for the largest budget.
const PLACES: usize = MOST_BOXES as usize;

const BYTES: usize = BOX_BYTES * PLACES;

// Whether a line has nothing to answer: it is empty, or a remark.
fn is_silent(line: &[u8]) -> bool {
    line.trim_ascii_start()
        .first()
        .is_none_or(|byte| *byte == b'#')
}

// The call that the bytes of a line are.
fn read_bytes<'a>(heap: Global, line: &'a [u8]) -> Result<Call, Why<'a>> {
    let text = std::str::from_utf8(line).map_err(|_| Why::NotText)?;
    read(heap, text)
}

// The answer of one line.
fn answer_line<'a>(
    heap: Global,
    desk: &mut Desk,
    line: &'a [u8],
    bytes: &'a mut [u8],
    path: &mut [OpenSplit],
) -> Result<Reply<'a>, Fault<'a>>
    requires wide { 1000000 ≤ length bytes.old }
    requires deep { 10000 ≤ length path.old }
    ensures same { KeptUnlessRead result (standing desk.old) (standing desk.new) }
{
    let call = read_bytes(heap, line)?;
    Ok(answer(desk, &call, bytes, path)?)
}

// Writes what line `number` is answered, and tells whether it is.
fn tell<W: Write>(output: &mut W, number: u64, told: Result<Reply, Fault>) -> io::Result<bool> {
    match told {
        Ok(reply) => {
            writeln!(output, "{reply}")?;
            Ok(true)
        }
        Err(Fault::Stopped(refusal @ Stop::Refused(_))) => {
            writeln!(output, "{refusal}")?;
            Ok(true)
        }
        Err(fault) => {
            writeln!(output, "error line {number}: {fault}")?;
            Ok(false)
        }
    }
}

/// Answers every line of the input, and tells whether all could be answered.
/// The answers so far are out before more input is waited for.
pub fn answer_all<R: Read, W: Write>(
    heap: Global,
    input: &mut BufReader<R>,
    output: &mut W,
) -> io::Result<bool> {
    let mut record = vec![in heap; 0u8; BYTES]?;
    let mut places = vec![in heap; <OpenSplit as Entry>::BLANK; PLACES]?;
    let bytes = record.as_mut_slice();
    let path = places.as_mut_slice();
    let mut desk = Desk::first();
    let mut line = Vec::new(heap);
    let mut good = true;
    // The end of the input ends the loop: no input has so many lines.
    for number in 1..u64::MAX {
        if !input.buffer().contains(&b'\n') {
            output.flush()?;
        }
        line.clear();
        if input.read_until(b'\n', &mut line)? == 0 {
            break;
        }
        if !is_silent(line.as_slice()) {
            let told = answer_line(heap, &mut desk, line.as_slice(), bytes, path);
            good = tell(output, number, told)? && good;
        }
    }
    output.flush()?;
    Ok(good)
}
