//! Open frames: each belongs to a record that is active until the request it waits for is done.
ghost use Rattle.std.specs.Prelude.{◌≡◌, ◌<◌, ◌++◌, ◌∷◌, [], true, vec_len};
ghost use Rattle.std.specs.Vec.{vec_capacity};
ghost use Rattle.ioc_dbcommon.specs.Steps.{with_active};
ghost use Rattle.ioc_store.specs.World.{Has, changed};

use crate::steps::set_active;
use ioc_names::RecordNo;
use ioc_store::frames::{Frame, ResumePoint};
use ioc_store::store::Store;

/// Opens a frame: the record is active, and resumes at this point later.
#[inline(always)]
pub fn open_frame<S: Store>(
    store: &mut S,
    frames: &mut Vec<Frame>,
    source: RecordNo,
    place: ResumePoint,
)
    requires there { Has (S.world store.old) source }
    requires room { vec_len frames.old < vec_capacity frames.old }
    ensures world { S.world store.new ≡ changed S.Record.rules (S.world store.old) source (with_active true) }
    ensures given { S.given store.new ≡ S.given store.old }
    ensures items { frames.new.items ≡ frames.old.items ++ (record { source = source; place = place }) ∷ [] }
    ensures room { vec_capacity frames.new ≡ vec_capacity frames.old }
{
    set_active(store, source, true);
    frames.push_reserved(Frame { source, place });
}
