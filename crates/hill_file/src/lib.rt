//! The file of a hill: nothing in it is overwritten by mistake, one program at a time works on it, and what others
//! write to it all the same is noticed.
//!
//! `open_fault` says why a file is refused, `lock` takes its lock, and `zeros` writes and finds the zeros that a new
//! hill starts from. `sector_file` is what may be done with a file of sectors, and `placed_file` the file that a path
//! leads to. `careful_device` is the device that looks at the headers before it writes, and `device` that device over a
//! hill's file. `folder` opens the folder of a file. `place` puts a new file in its place when it is whole, and `left`
//! says which hill a service goes on with.
//!
//! The main clauses: the device meets what `sector_disk` asks of each device, and one that is made has at least the
//! sectors that were asked for. A file is refused for its lock only if it is opened alone, and for what it holds only
//! if that is kept. Whatever a careful device has done, it wrote right after a look that found the headers as it
//! remembers them; and its sync is answered `Ok` only if one that failed was followed by a write of each sector, and if
//! the file was opened in doubt, its name was synced since (`specs/Careful`). A sync without doubt writes nothing. A
//! lock, what a file holds and where a path leads are the system's. No contract speaks of them; tests do.
//!
//! Nothing here knows what the sectors hold, but for the headers of a hill. A file is never shortened but to overwrite
//! it.
#![tactic(auto)]

mod careful_device;
mod device;
mod folder;
mod left;
mod lock;
mod open_fault;
mod place;
mod placed_file;
mod sector_file;
mod zeros;

pub use careful_device::CarefulDevice;
pub use device::{Existing, HillFile};
pub use left::is_another_hill;
pub use lock::{TryLock, require_held};
pub use open_fault::OpenFault;
pub use place::{Place, name_beside};
pub use placed_file::{PlacedFile, Sharing};
pub use sector_file::{Headers, SectorFile};
