//! How the program ends with a reply.

ghost use Rattle.std.specs.Prelude.{◌≡◌, ◌≢◌};
ghost use Rattle.koth_hills.specs.ReplyStatus.{reply_status};

use hill_store::Reply;
use koth_commands::Status;

/// How the program ends with a reply.
pub(crate) fn status_of(reply: &Reply) -> Status
    ensures status { result ≡ reply_status reply.now }
    ensures words { result ≢ Status.WordFault }
{
    match *reply {
        Reply::Placed { .. } | Reply::Fell { .. } => Status::Done,
        Reply::Refused(_) | Reply::Worn => Status::Refused,
        Reply::Memory => Status::NoMemory,
        Reply::Disk | Reply::Reopen => Status::StreamFault,
    }
}
