//! The one call that fills a temporary entry next.
//! What it does, when it fails and what it leaves is as the shelf's own call says.
//! It takes no memory of its own.

ghost use Rattle.std.specs.Prelude.{◌≡◌};
ghost use Rattle.zi_shelf.specs.Shelved.{Fill};
ghost use Rattle.zi_shelf.specs.Shelving.{Does};
ghost use Rattle.zi_shelf.specs.Told.{plain_reply};
ghost use Rattle.zi_session.specs.Works.{work_of};

use crate::work::Work;
use zi_shelf::{Shelf, ShelfFault};

/// Makes this call.
pub(crate) fn put_work<K: Shelf>(k: &mut K, top: &str, work: &Work) -> Result<(), ShelfFault>
    ensures does { Does (K.seen k.old) (Fill top.now (work_of work.now)) (plain_reply result) (K.seen k.new) }
{
    match work {
        Work::MakeFolder { path } => k.make_folder(top, path),
        Work::Append { path, bytes } => k.append(top, path, bytes.as_slice()),
        Work::FinishFile { path, exec, mtime } => k.finish_file(top, path, *exec, *mtime),
        Work::MakeLink { path, target } => k.make_link(top, path, target.as_str()),
    }
}
