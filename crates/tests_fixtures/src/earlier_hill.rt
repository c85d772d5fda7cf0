//! A hill that the program wrote before slots had four sectors, and before settings had limits.
//!
//! It is in the old format, and its fields of limits are zeros, which stand for the core size. These are the bytes that an earlier version
//! left on its device. `migrations` in `bench/transcripts` has the same, and what that version said of them.

/// Bytes of a sector.
pub const SECTOR: usize = 512;

/// Sectors of the device: those of the headers, and two for each of four slots.
pub const SECTORS: usize = 2 + 2 * 4;

/// A sector, where what it holds begins, and the bytes.
type Written = (u32, usize, &'static [u8]);

/// What its sectors hold that is not zero. Four warriors came, and the third fell.
const WRITTEN: [Written; 17] = [
    (
        0,
        0,
        &[
            75, 79, 84, 72, 72, 73, 76, 49, 0, 0, 0, 0, 0, 0, 0, 4, 3, 32, 0, 0, 7, 208, 0, 64, 0,
            20, 0, 40, 0, 20, 1, 53, 41, 6, 0, 3, 0, 0, 0, 0, 0, 0, 0, 0, 0, 0, 0, 4, 0, 3, 0, 0,
            0, 0, 0, 0, 0, 1, 0, 0, 0, 0, 0, 0, 0, 0, 3, 0, 0, 0, 0, 0, 0, 0, 2, 1, 0, 0, 0, 0, 0,
            0, 0, 2, 0, 0, 0, 0, 0, 0, 0, 4, 3,
        ],
    ),
    (
        1,
        0,
        &[
            75, 79, 84, 72, 72, 73, 76, 49, 0, 0, 0, 0, 0, 0, 0, 3, 3, 32, 0, 0, 7, 208, 0, 64, 0,
            20, 0, 40, 0, 20, 1, 53, 41, 6, 0, 3, 0, 0, 0, 0, 0, 0, 0, 0, 0, 0, 0, 3, 0, 3, 0, 0,
            0, 0, 0, 0, 0, 1, 0, 0, 0, 0, 0, 0, 0, 0, 2, 0, 0, 0, 0, 0, 0, 0, 2, 1, 0, 0, 0, 0, 0,
            0, 0, 1, 0, 0, 0, 0, 0, 0, 0, 3, 2,
        ],
    ),
    (2, 0, &[1, 6, 1, 1, 0, 0, 0, 1]),
    (3, 289, &[1, 0, 0, 73, 109, 112]),
    (3, 340, b"A. K. Dewdney"),
    (
        4,
        0,
        &[
            2, 2, 0, 1, 0, 4, 0, 3, 1, 6, 1, 3, 0, 2, 0, 2, 7, 1, 1, 1, 3, 30, 0, 0, 0, 4,
        ],
    ),
    (5, 289, &[4, 0, 0, 68, 119, 97, 114, 102]),
    (5, 340, b"A. K. Dewdney"),
    (5, 391, &[2]),
    (6, 1, &[4, 1, 1]),
    (7, 289, &[1, 0, 0, 85, 110, 110, 97, 109, 101, 100]),
    (7, 340, b"Anonymous"),
    (7, 389, &[20, 0, 0, 0, 20]),
    (
        8,
        1,
        &[
            4, 1, 1, 0, 0, 0, 0, 14, 1, 1, 1, 0, 0, 0, 0, 1, 6, 1, 5, 3, 30, 3, 29, 10, 1, 1, 5, 3,
            31, 2, 248,
        ],
    ),
    (9, 289, &[4, 0, 1, 83, 116, 111, 110, 101]),
    (9, 340, b"Nobody"),
    (9, 391, &[17, 0, 0, 0, 9, 0, 0, 0, 20]),
];

/// All sectors, one after another.
pub fn bytes() -> [u8; SECTORS * SECTOR] {
    let mut bytes = [0; SECTORS * SECTOR];
    for (sector, begins, written) in &WRITTEN {
        let sectors = (*sector as usize).saturating_mul(SECTOR);
        write_at(&mut bytes, sectors.saturating_add(*begins), *written);
    }
    bytes
}

/// Writes `written` into `bytes`, from index `begins` on.
fn write_at(bytes: &mut [u8], begins: usize, written: &[u8]) {
    for (place, byte) in bytes.iter_mut().skip(begins).zip(written) {
        *place = *byte;
    }
}
