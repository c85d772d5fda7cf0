//! Sources that tests submit to a hill of two, and what it answers them.

use hill_store::Reply;
use war_types::{AsmFault, AsmKind};

/// A source, and what it is answered.
pub type Answered = (&'static [u8], Reply);

/// The reply to the first warrior.
pub const FIRST: Reply = Reply::Placed {
    entry: 1,
    rank: 1,
    score: 0,
};

/// The reply to a second one that has two ties with it.
pub const SECOND: Reply = Reply::Placed {
    entry: 2,
    rank: 2,
    score: 2,
};

/// The reply to a third one that both of them win against.
const THIRD: Reply = Reply::Fell { entry: 3, score: 0 };

/// The reply to a source without a line.
pub const EMPTY: Reply = Reply::Refused(AsmFault {
    line: 0,
    kind: AsmKind::Empty,
});

/// A warrior that stays on a hill alone.
pub static ONE: [Answered; 1] = [(b"MOV 0,1", FIRST)];

/// Two warriors.
pub static TWO: [Answered; 2] = [(b"MOV 0,1", FIRST), (b"JMP 0", SECOND)];

/// Three warriors. The third falls.
pub static THREE: [Answered; 3] = [(b"MOV 0,1", FIRST), (b"JMP 0", SECOND), (b"DAT 0,0", THIRD)];

/// The sources of a list. The third is refused, and the fourth falls.
pub static SOURCES: [&[u8]; 4] = [b"MOV 0,1", b"JMP 0", b"", b"DAT 0,0"];

/// The replies to them.
pub static REPLIES: [Reply; 4] = [FIRST, SECOND, EMPTY, THIRD];
