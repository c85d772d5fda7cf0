//! A device in memory: each call, and each image that a stop leaves of one of four sectors.

use crate::calls::{
    Counted, Step, expect_faults, expect_stopped, made, read, set, stopped, take_all, write,
};
use crate::expecting::expect;
use sector_disk::{each_image_is_chosen, laws_of_images};
use std::process::Abort;
use tests_fixtures::Refusing;

/// A new device of three sectors is read and written.
static WRITTEN: [Step; 5] = [
    Step::Sectors(3),
    Step::Read(2, 0),
    Step::Write(1, 1),
    Step::Write(1, 2),
    Step::Read(1, 2),
];

/// What a sync and a content that is made stable leave of that device.
fn expect_stable(rt: &impl Abort, device: &mut Counted<'_>) {
    expect_stopped(rt, device, &[], 1, 0);
    take_all(rt, device, &[Step::Sync]);
    expect_stopped(rt, device, &[], 1, 2);

    write(rt, device, 1, 3);
    set(rt, device, 1, 4);
    expect_stopped(rt, device, &[9, 9, 9], 1, 4);
    expect_faults(rt, device, 0);
}

#[test]
fn each_call_once(rt: HostRuntime) {
    let memory = Refusing::new(rt.alloc());
    let mut device = made(&rt, &memory, 3, &WRITTEN);
    expect_stable(&rt, &mut device);
    drop(device);
    drop(memory);
}

#[test]
fn laws_are_called(rt: HostRuntime) {
    laws_of_images();
    let memory = Refusing::new(rt.alloc());
    let device = made(&rt, &memory, 1, &[]);
    each_image_is_chosen(&device);
    drop(device);
    drop(memory);
}

/// Two writes to sector 0 and one to sector 2.
static WRITTEN_TO_TWO: [Step; 3] = [Step::Write(0, 1), Step::Write(2, 5), Step::Write(0, 2)];

/// The images of these writes: 3 contents of the one sector by 2 of the other.
static BY_HAND: [[u8; 4]; 6] = [
    [0, 0, 0, 0],
    [1, 0, 0, 0],
    [2, 0, 0, 0],
    [0, 0, 5, 0],
    [1, 0, 5, 0],
    [2, 0, 5, 0],
];

/// One byte of each of the four sectors of an image.
fn bytes_of(rt: &impl Abort, device: &mut Counted<'_>) -> [u8; 4] {
    [
        read(rt, device, 0)[0],
        read(rt, device, 1)[511],
        read(rt, device, 2)[255],
        read(rt, device, 3)[1],
    ]
}

/// The bytes of the image that a stop with these numbers leaves.
fn image_at(rt: &impl Abort, device: &Counted<'_>, numbers: &[u32]) -> [u8; 4] {
    let mut left = stopped(rt, device, numbers);
    bytes_of(rt, &mut left)
}

/// The place of the image that these numbers name, among those counted by hand. A stop leaves it.
fn expect_image(rt: &impl Abort, device: &Counted<'_>, numbers: [u32; 4]) -> usize {
    let first = numbers[0].min(2) as usize;
    let place = if numbers[2] == 0 {
        first
    } else {
        first.saturating_add(3)
    };
    let due = BY_HAND.get(place).expect(rt, "an image");
    expect(rt, image_at(rt, device, &numbers) == *due, "an image");
    place
}

/// How many of the 256 choices of four numbers from 0 to 3 leave each image.
fn count_images(rt: &impl Abort, device: &Counted<'_>) -> [u32; 6] {
    let mut counts = [0_u32; 6];
    for choice in 0..256_u32 {
        let numbers = [choice % 4, choice / 4 % 4, choice / 16 % 4, choice / 64];
        let place = expect_image(rt, device, numbers);
        assert!(rt; place < counts.len());
        counts[place] = counts[place].saturating_add(1);
    }
    counts
}

/// Sectors 1 and 3 leave 16 choices; number 3 is one more for the last content of sector 0, and 2 and 3 are for that of sector 2.
#[test]
fn every_image_of_four_sectors(rt: HostRuntime) {
    let memory = Refusing::new(rt.alloc());
    let device = made(&rt, &memory, 4, &WRITTEN_TO_TWO);
    let counts = count_images(&rt, &device);
    drop(device);
    drop(memory);
    expect(&rt, counts == [16, 16, 32, 48, 48, 96], "images");
}

/// One write to the first sector and one to the last.
static AT_THE_ENDS: [Step; 2] = [Step::Write(0, 1), Step::Write(3, 2)];

/// A stop with these numbers leaves these bytes.
fn expect_left(rt: &impl Abort, device: &Counted<'_>, numbers: &[u32], due: [u8; 4]) {
    expect(rt, image_at(rt, device, numbers) == due, "an image");
}

/// A missing number is 0, and one too many names nothing. What a stop left is stable.
fn expect_numbers(rt: &impl Abort, device: &Counted<'_>) {
    expect_left(rt, device, &[1], [1, 0, 0, 0]);
    let mut left = stopped(rt, device, &[0, 0, 0, 4_294_967_295, 1]);
    expect(rt, bytes_of(rt, &mut left) == [0, 0, 0, 2], "one too many");
    write(rt, &mut left, 3, 3);
    expect_left(rt, &left, &[], [0, 0, 0, 2]);
    drop(left);
}

#[test]
fn numbers_that_are_missing_or_too_many(rt: HostRuntime) {
    let memory = Refusing::new(rt.alloc());
    let device = made(&rt, &memory, 4, &AT_THE_ENDS);
    expect_numbers(&rt, &device);
    drop(device);
    drop(memory);
}
