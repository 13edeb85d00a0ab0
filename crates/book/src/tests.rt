//! The calls of a draft as a caller meets them: what is accepted, and which fault refuses a call that has several.
use super::draft::Draft;
use problems::quantity::{RowEnds, Span};
use problems::refusal::{Refusal, Refused};
use std::process::Abort;
use std::test::Fail;

const WIDE: Span = Span {
    lower: -100_000,
    upper: 100_000,
};

fn span(lower: i64, upper: i64) -> Span {
    Span { lower, upper }
}

fn ends(lower: i64, upper: i64) -> RowEnds {
    RowEnds::from(span(lower, upper))
}

// Two variables and the row 1 2.
fn two_variables_and_a_row(rt: &impl Abort) -> Result<Draft, Fail> {
    let mut draft = Draft::first();
    draft.new(2, &[WIDE, WIDE])?;
    assert_eq!(rt; draft.add_row(&[1, 2], RowEnds::FREE), Ok(3));
    Ok(draft)
}

// The row after the two variables and the row, so a refused call before it changed nothing.
fn next_row_is_four(rt: &impl Abort, draft: &mut Draft) {
    assert_eq!(rt; draft.add_row(&[2, 1], RowEnds::FREE), Ok(4));
}

fn new_refused(
    rt: &impl Abort,
    n: i64,
    spans: &[Span],
    why: Refusal,
    place: i64,
) -> Result<(), Fail> {
    let mut draft = two_variables_and_a_row(rt)?;
    assert_eq!(rt; draft.new(n, spans), Err(Refused { why, place }));
    next_row_is_four(rt, &mut draft);
    Ok(())
}

fn row_refused(
    rt: &impl Abort,
    coefs: &[i64],
    ends: RowEnds,
    why: Refusal,
    place: i64,
) -> Result<(), Fail> {
    let mut draft = two_variables_and_a_row(rt)?;
    assert_eq!(rt; draft.add_row(coefs, ends), Err(Refused { why, place }));
    next_row_is_four(rt, &mut draft);
    Ok(())
}

#[test]
fn new_is_refused_by_its_first_fault(rt: HostRuntime) -> Result<(), Fail> {
    new_refused(&rt, 0, &[], Refusal::Length, 0)?;
    new_refused(&rt, -1, &[WIDE], Refusal::Length, 0)?;
    new_refused(&rt, 13, &[WIDE; 13], Refusal::Length, 0)?;
    new_refused(&rt, 2, &[span(200_000, 0)], Refusal::Length, 0)?;
    new_refused(&rt, 1, &[span(-100_001, 0)], Refusal::Range, 1)?;
    new_refused(&rt, 1, &[span(0, 100_001)], Refusal::Range, 1)?;
    new_refused(&rt, 2, &[span(5, 1), span(1, 200_000)], Refusal::Range, 2)?;
    new_refused(&rt, 3, &[WIDE, span(5, 1), span(9, 1)], Refusal::Cross, 2)
}

#[test]
fn row_is_refused_by_its_first_fault(rt: HostRuntime) -> Result<(), Fail> {
    row_refused(&rt, &[101], RowEnds::FREE, Refusal::Length, 0)?;
    row_refused(&rt, &[1, 2, 3], ends(5, 1), Refusal::Length, 0)?;
    row_refused(&rt, &[100, -101], ends(300_000_000, 0), Refusal::Range, 2)?;
    row_refused(&rt, &[101, 101], RowEnds::FREE, Refusal::Range, 1)?;
    row_refused(
        &rt,
        &[1, 2],
        ends(200_000_001, 200_000_001),
        Refusal::Range,
        3,
    )?;
    row_refused(&rt, &[1, 2], ends(5, -200_000_001), Refusal::Range, 4)
}

#[test]
fn upper_end_has_its_place_without_a_lower_end(rt: HostRuntime) -> Result<(), Fail> {
    let ends = RowEnds {
        lower: None,
        upper: Some(200_000_001),
    };
    row_refused(&rt, &[0, 0], ends, Refusal::Range, 4)
}

#[test]
fn crossing_is_told_before_a_repeat(rt: HostRuntime) -> Result<(), Fail> {
    row_refused(&rt, &[1, 2], ends(1, 0), Refusal::Cross, 4)?;
    row_refused(&rt, &[1, 2], ends(0, 0), Refusal::Repeat, 1)
}

#[test]
fn widest_numbers_are_accepted(rt: HostRuntime) {
    let mut draft = Draft::first();
    assert_eq!(rt;
        draft.new(3, &[WIDE, span(100_000, 100_000), span(-100_000, -100_000)]),
        Ok(())
    );
    assert_eq!(rt;
        draft.add_row(&[100, -100, 0], ends(-200_000_000, 200_000_000)),
        Ok(4)
    );
    assert_eq!(rt; draft.add_row(&[0, 0, 0], RowEnds::FREE), Ok(5));
}

#[test]
fn first_draft_has_one_variable_and_new_begins_afresh(rt: HostRuntime) -> Result<(), Fail> {
    let mut draft = Draft::first();
    assert_eq!(rt; draft.add_row(&[7], RowEnds::FREE), Ok(2));
    draft.new(1, &[WIDE])?;
    assert_eq!(rt; draft.add_row(&[7], RowEnds::FREE), Ok(2));
    let problem = draft.open();
    assert_eq!(rt; problem.variables(), 1);
    assert_eq!(rt; problem.rows(), 1);
    Ok(())
}

#[test]
fn thirteenth_row_is_refused_after_its_own_faults(rt: HostRuntime) {
    let mut draft = Draft::first();
    for i in 1..13usize {
        assert_eq!(rt; draft.add_row(&[i as i64], RowEnds::FREE), Ok(i + 1));
    }
    let crossing = Refused {
        why: Refusal::Cross,
        place: 14,
    };
    assert_eq!(rt; draft.add_row(&[12], ends(1, 0)), Err(crossing));
    let repeat = Refused {
        why: Refusal::Repeat,
        place: 12,
    };
    assert_eq!(rt; draft.add_row(&[12], RowEnds::FREE), Err(repeat));
    let full = Refused {
        why: Refusal::Full,
        place: 12,
    };
    assert_eq!(rt; draft.add_row(&[13], RowEnds::FREE), Err(full));
    assert_eq!(rt; draft.open().rows(), 12);
}
