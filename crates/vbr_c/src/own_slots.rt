//! The calls on the slots that a handle keeps to itself: of a set, and of a map.
ghost use Rattle.std.specs.Prelude.{◌≡◌};
ghost use Rattle.vbr_handles.specs.Forsaking.{HasForsaken};
ghost use Rattle.vbr_handles.specs.GivingSlotsBack.{TellsGivenBack};
ghost use Rattle.vbr_handles.specs.Reserving.{TellsReserve};

use vbr_handles::coded_calls::{forsaking, giving_slots_back, reserving};
use vbr_handles::{Handle, MapHandle};

/// `vbr_spare` of vbr.h.
#[unsafe(no_mangle)]
pub extern "C" fn vbr_spare(handle: &mut Handle) -> u32
    ensures given { TellsGivenBack handle.old.owned.member handle.new.owned.member result }
    ensures steps { handle.new.steps ≡ handle.old.steps }
    ensures opening { handle.new.opening ≡ handle.old.opening }
{
    giving_slots_back::give_slots_back(handle.owned.owner_mut())
}

/// `vbr_map_spare` of vbr.h.
#[unsafe(no_mangle)]
pub extern "C" fn vbr_map_spare(handle: &mut MapHandle) -> u32
    ensures given { TellsGivenBack handle.old.owned.member handle.new.owned.member result }
    ensures steps { handle.new.steps ≡ handle.old.steps }
    ensures opening { handle.new.opening ≡ handle.old.opening }
{
    giving_slots_back::give_slots_back(handle.owned.owner_mut())
}

/// `vbr_reserve` of vbr.h.
#[unsafe(no_mangle)]
pub extern "C" fn vbr_reserve(handle: &mut Handle, wanted: u32) -> u32
    ensures took { TellsReserve handle.old.owned.member handle.new.owned.member wanted result }
    ensures steps { handle.new.steps ≡ handle.old.steps }
    ensures opening { handle.new.opening ≡ handle.old.opening }
{
    reserving::reserve(handle.owned.owner_mut(), wanted)
}

/// `vbr_map_reserve` of vbr.h.
#[unsafe(no_mangle)]
pub extern "C" fn vbr_map_reserve(handle: &mut MapHandle, wanted: u32) -> u32
    ensures took { TellsReserve handle.old.owned.member handle.new.owned.member wanted result }
    ensures steps { handle.new.steps ≡ handle.old.steps }
    ensures opening { handle.new.opening ≡ handle.old.opening }
{
    reserving::reserve(handle.owned.owner_mut(), wanted)
}

/// Gives up the slots that the handle keeps to itself, and the one that it holds, for good: nobody
/// has them until its set is closed or renewed. It makes no step. `bindings/src/shared.c` calls it,
/// for a handle whose process ended in the middle of a call.
#[unsafe(no_mangle)]
pub extern "C" fn vbr_forsake(handle: &mut Handle)
    ensures forsaken { HasForsaken handle.old.owned.member handle.new.owned.member }
    ensures steps { handle.new.steps ≡ handle.old.steps }
    ensures opening { handle.new.opening ≡ handle.old.opening }
{
    forsaking::forsake_slots(handle.owned.owner_mut());
}

/// Gives up the slots of a map's handle, as [`vbr_forsake`] does.
#[unsafe(no_mangle)]
pub extern "C" fn vbr_map_forsake(handle: &mut MapHandle)
    ensures forsaken { HasForsaken handle.old.owned.member handle.new.owned.member }
    ensures steps { handle.new.steps ≡ handle.old.steps }
    ensures opening { handle.new.opening ≡ handle.old.opening }
{
    forsaking::forsake_slots(handle.owned.owner_mut());
}
