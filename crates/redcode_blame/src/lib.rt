//! What is to blame for a refusal of a source, and the sentence that explains it.
//!
//! `blame` asks, for each kind of fault, what is to blame: `warriors`, `blocks`, `equs`, `counts`, `tokens`,
//! `statements`, `operands`, `expressions`, and within those `shape` and `names`. `said` puts sentences together, and
//! `place` has the part of the line that is told. What they look up in the source is `redcode_scene`'s.
//!
//! The main clause: that part is from a token of the line to one of its tokens, or the line (`IsOfLine` of `blame_of`).
//! Which tokens, and the sentences are help and no promise: no clause speaks of them, and tests compare them word for
//! word. Nothing here changes what is refused.
#![tactic(auto)]

mod blame;
mod blocks;
mod counts;
mod equs;
mod expressions;
mod names;
mod operands;
mod place;
mod said;
mod shape;
mod statements;
mod tokens;
mod warriors;

pub use blame::{Blame, blame_of};
pub use redcode_scene::{Copied, Scene, copy_of, told_faults};
pub use said::{Part, say};
