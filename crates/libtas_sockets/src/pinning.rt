//! Flows are pinned for sockets.
ghost use Rattle.std.specs.Prelude.{◌≡◌, ℕ, ◌<◌, OnOk, IfErr};
ghost use Rattle.std.specs.List.{list_any};
ghost use Rattle.app_reaper.specs.Lists.{is_on};
ghost use Rattle.libtas_sockets.specs.Answers.{error_of};

use crate::socket_error::SocketError;
use app_reaper::PinList;
use flow_lock::PinRefused;
use tas_model::FlowId;

/// Whether a socket is on the flow's slot.
pub(crate) fn is_slot_in_use(sockets: &PinList, id: FlowId) -> bool
    ensures { result ≡ list_any (is_on id.slot) sockets.now.list }
{
    sockets.place_of(id.slot).is_some()
}

/// Makes room for one socket more.
pub(crate) fn make_room(sockets: &mut PinList) -> Result<(), SocketError>
    ensures list { sockets.new.list ≡ sockets.old.list }
    ensures room { OnOk result (0 < sockets.new.spare) }
    ensures full { IfErr result (λ e. e ≡ SocketError.OutOfMemory) }
{
    match sockets.reserve() {
        Ok(()) => Ok(()),
        Err(_) => Err(SocketError::OutOfMemory),
    }
}

/// Why a flow wasn't pinned, as a socket's error.
pub(crate) fn unpinned(refused: PinRefused) -> SocketError
    ensures { result ≡ error_of refused }
{
    match refused {
        PinRefused::Stale(word) => SocketError::Stale(word),
        PinRefused::Moved(seen, found) => SocketError::Moved(seen, found),
    }
}
