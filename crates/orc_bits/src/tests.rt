use crate::{LaneView, clamp_s, clamp_u, signed};

#[test]
fn lanes_and_numbers(rt: HostRuntime) {
    let bytes = [1, 2, 3, 4, 5, 6, 7, 8, 9, 10, 11, 12, 13, 14, 15, 16];
    assert_eq!(rt; LaneView::<4> { bytes }.get(2), 0x0c0b_0a09);
    let changed = LaneView::<4> { bytes }.with(1, 0xff_a1b2_c3d4).bytes;
    let want = [
        1, 2, 3, 4, 0xd4, 0xc3, 0xb2, 0xa1, 9, 10, 11, 12, 13, 14, 15, 16,
    ];
    assert_eq!(rt; changed, want);
    assert_eq!(rt; signed(0x1_8000, 16), -32768);
    assert_eq!(rt; clamp_s(-32_769, 16), 0x8000);
    assert_eq!(rt; clamp_u(256, 8), 0xff);
}
