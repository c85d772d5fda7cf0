//! The formats of a hill on a device.

ghost use Rattle.std.specs.Prelude.{◌≡◌, ◌≤◌, ◌+◌};
ghost use Rattle.hill_bytes.specs.Layout.{code_room, layout_of};

/// How a hill is laid out on a device.
#[derive(Clone, Copy, Debug, PartialEq, Eq)]
pub enum Format {
    /// Headers begin with `KOTHHIL1`, and a slot has two sectors, with room for 100 instructions.
    Old,
    /// Headers begin with `KOTHHIL2`, and a slot has four sectors, with room for 200 instructions.
    New,
}

impl Format {
    /// What a header begins with.
    pub(crate) fn magic(self) -> [u8; 8]
        ensures { result ≡ (layout_of self).magic }
    {
        match self {
            Format::Old => *b"KOTHHIL1",
            Format::New => *b"KOTHHIL2",
        }
    }

    /// Instructions that a slot has room for.
    pub fn code_room(self) -> u16
        ensures { result ≡ code_room (layout_of self) }
    {
        match self {
            Format::Old => 100,
            Format::New => 200,
        }
    }

    /// Sectors of a slot.
    pub fn slot_sectors(self) -> u32
        ensures value { result ≡ (layout_of self).full + 1 }
        ensures few { result ≤ 4 }
    {
        match self {
            Format::Old => 2,
            Format::New => 4,
        }
    }
}
