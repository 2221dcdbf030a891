//! Which width `each_width!` takes: no clause says that it is the least.

ghost use Rattle.std.specs.Prelude.{◌<◌, ◌≤◌};

use hy_bits::{BitRow, each_width};

/// The width, by way of the greatest number for which its rows have room.
fn room<const W: usize>(count: usize) -> usize
    requires width { W ≤ 16 }
    requires within { 0 < W }
{
    let last = 64 * W - 1;
    if BitRow::<W>::empty().with(last).has(last) {
        64 * W
    } else {
        count
    }
}

#[test]
fn takes_the_least_width(rt: HostRuntime) {
    for (count, wanted) in [
        (0, 64),
        (64, 64),
        (65, 128),
        (128, 128),
        (256, 256),
        (257, 512),
        (512, 512),
        (513, 1024),
        (1024, 1024),
    ] {
        assert_eq!(rt; each_width!(count, room(count)), wanted);
    }
}
