//! Entries, byte by byte.
use super::*;

#[test]
fn a_split_is_six_bytes_with_its_variable_from_one(rt: HostRuntime) {
    let mut bytes = [0xaa; 8];
    let mut record = Record {
        bytes: &mut bytes,
        len: 1,
    };
    record.write_split((2, -5));
    assert!(rt; record.len == 7);
    assert!(rt; bytes[0] == 0xaa && bytes[1] == 1 && bytes[2] == 3 && bytes[7] == 0xaa);
    assert!(rt; bytes[3] == 0xff && bytes[4] == 0xff && bytes[5] == 0xff && bytes[6] == 0xfb);
}

#[test]
fn a_sum_leaf_leaves_zeros_out(rt: HostRuntime) {
    let mut bytes = [0xaa; 101];
    let mut record = Record {
        bytes: &mut bytes,
        len: 0,
    };
    record.write_sum(&[0, 258, 0, -1]);
    assert!(rt; record.len == 12);
    assert!(rt; bytes[0] == 2 && bytes[1] == 0 && bytes[2] == 0 && bytes[3] == 10);
    assert!(rt; bytes[4] == 0 && bytes[5] == 0 && bytes[6] == 1 && bytes[7] == 2);
    assert!(rt; bytes[8] == 0xff && bytes[11] == 0xff && bytes[12] == 0xaa);
}

#[test]
fn a_divisor_leaf_is_three_bytes_with_its_row_from_one(rt: HostRuntime) {
    let mut bytes = [0xaa; 4];
    let mut record = Record {
        bytes: &mut bytes,
        len: 0,
    };
    record.write_divisor(11, 255);
    assert!(rt; record.len == 3);
    assert!(rt; bytes[0] == 3 && bytes[1] == 12 && bytes[2] == 255 && bytes[3] == 0xaa);
}
