//! A stack over numbers, and what their owner finds afterwards.
ghost use Rattle.std.specs.Prelude.{◌≡◌, ◌≤◌, length, Some, slice_set};

use super::*;

// Two entries go on, and one comes off: its owner finds the first, a blank, and the rest as it was.
fn two_on_one_off<E: Entry>(slots: &mut [E], a: E, b: E) -> Option<E>
    requires { 2 ≤ length slots.old }
    ensures value { result ≡ Some b }
    ensures after { slots.new ≡ slice_set (slice_set slots.old 0 a) 1 E.BLANK }
{
    let mut s = Stack::over(&mut *slots);
    let _ = s.push(a);
    let _ = s.push(b);
    s.pop()
}

#[test]
fn a_number_taken_off_leaves_zero(rt: HostRuntime) {
    let mut slots = [7u32; 3];
    assert_eq!(rt; two_on_one_off(&mut slots, 1, 2), Some(2));
    assert!(rt; slots[0] == 1 && slots[1] == 0 && slots[2] == 7);
}
