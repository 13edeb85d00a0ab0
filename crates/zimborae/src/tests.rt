//! Scripts and their answers: lines that cannot be read or answered, what is skipped, and worked cases.
use super::script::answer_all;
use std::alloc::Global;
use std::io::BufReader;
use std::process::Abort;
use std::test::Fail;

// The script is answered by these lines, all of them or not all of them well.
fn answers(
    rt: &impl Abort,
    heap: Global,
    script: &[u8],
    good: bool,
    lines: &str,
) -> Result<(), Fail> {
    let mut output = Vec::new(heap);
    assert_eq!(rt;
        answer_all(heap, &mut BufReader::new(heap, script)?, &mut output)?,
        good
    );
    assert_eq!(rt; std::str::from_utf8(output.as_slice())?, lines);
    Ok(())
}

#[test]
fn words_that_are_wrong_are_named(rt: HostRuntime) -> Result<(), Fail> {
    let script =
        b"frob 1\nnew\nnew 1 0 +5\nnew 1 0 9223372036854775808\nrow 1\nrow 0x10 - -\nrow 1 - 1e3\n\
        open now\nask\nask pivot 5\nask halving -\nask halving 5 6\ncaf\xe9\n";
    let lines = "error line 1: \"frob\" is not a call\n\
        error line 2: \"new\" wants a number of variables\n\
        error line 3: \"+5\" is not a number\n\
        error line 4: \"9223372036854775808\" is not a number\n\
        error line 5: \"row\" wants two ends\n\
        error line 6: \"0x10\" is not a number\n\
        error line 7: \"1e3\" is neither a number nor \"-\"\n\
        error line 8: \"now\" is one word too many\n\
        error line 9: \"ask\" wants a tester and a budget\n\
        error line 10: \"pivot\" is not a tester\n\
        error line 11: \"-\" is not a number\n\
        error line 12: \"6\" is one word too many\n\
        error line 13: the line is not UTF-8\n";
    answers(&rt, rt.alloc(), script, false, lines)
}

#[test]
fn long_word_is_cut_between_characters(rt: HostRuntime) -> Result<(), Fail> {
    let script =
        "a\u{e9}\u{e9}\u{e9}\u{e9}\u{e9}\u{e9}\u{e9}\u{e9}\u{e9}\u{e9}\u{e9}\u{e9}\u{e9}\u{e9}\u{e9}\u{e9}\u{e9}\u{e9}\u{e9}\u{e9}";
    let lines =
        "error line 1: \"a\u{e9}\u{e9}\u{e9}\u{e9}\u{e9}\u{e9}\u{e9}\u{e9}\u{e9}\u{e9}\u{e9}\u{e9}\u{e9}\u{e9}\u{e9}\u{e9}\u{e9}\u{e9}\u{e9}\"... is not a call\n";
    answers(&rt, rt.alloc(), script.as_bytes(), false, lines)
}

#[test]
fn calls_out_of_turn_change_nothing(rt: HostRuntime) -> Result<(), Fail> {
    let script =
        b"ask halving 1\nnew 1 5 5\nopen\nrow 1 - -\nopen\nask halving 1\nnew 1 x 5\nrow 1 - -\n";
    let lines = "error line 1: nothing is open: open the draft by \"open\"\n\
        ok\n\
        ok\n\
        error line 4: there is no draft: begin one by \"new\"\n\
        error line 5: there is no draft: begin one by \"new\"\n\
        plan 5 boxes 1 bytes 0 record -\n\
        error line 7: \"x\" is not a number\n\
        error line 8: there is no draft: begin one by \"new\"\n";
    answers(&rt, rt.alloc(), script, false, lines)
}

#[test]
fn white_space_and_remarks_are_skipped(rt: HostRuntime) -> Result<(), Fail> {
    answers(&rt, rt.alloc(), b"", true, "")?;
    let script = b"\n \t\r\n# caf\xe9\n  # remark\n\tnew  1\t0 1 \r\nrow 1 -1 -";
    answers(&rt, rt.alloc(), script, true, "ok\nok 2\n")
}

#[test]
fn worked_cases(rt: HostRuntime) -> Result<(), Fail> {
    let script = b"new 2 0 1 0 1\nrow 2 2 3 3\nopen\nask halving 7\n\
        new 1 -3 0\nrow 2 -3 -3\nopen\nask halving 7\n\
        new 1 5 5\nopen\nask halving 1\n";
    let lines = "ok\nok 3\nok\n\
        none core boxes 5 bytes 60 record 010100000000020000070000000200000002ffffffff\
        010200000000020000070000000200000002ffffffff02000007fffffffefffffffe00000001\n\
        ok\nok 2\nok\n\
        none core boxes 3 bytes 30 record 0101fffffffe0200000300000002ffffffff02000003fffffffe00000001\n\
        ok\nok\n\
        plan 5 boxes 1 bytes 0 record -\n";
    answers(&rt, rt.alloc(), script, true, lines)
}
