//! What handles counted for those who operate a program: of a set, and of a map.
ghost use Rattle.std.specs.Prelude.{◌≡◌, ◌≤◌};
ghost use Rattle.vbr_handles.specs.Shown.{slots_of};

use vbr_handles::{Handle, MapHandle, tallies};

/// `vbr_restarts` of vbr.h.
#[unsafe(no_mangle)]
pub extern "C" fn vbr_restarts(handle: &mut Handle) -> u64
    ensures same { handle.new.owned.member ≡ handle.old.owned.member }
    ensures steps { handle.new.steps ≡ handle.old.steps }
    ensures opening { handle.new.opening ≡ handle.old.opening }
{
    tallies::restarts(handle.owned.owner_mut())
}

/// `vbr_map_restarts` of vbr.h.
#[unsafe(no_mangle)]
pub extern "C" fn vbr_map_restarts(handle: &mut MapHandle) -> u64
    ensures same { handle.new.owned.member ≡ handle.old.owned.member }
    ensures steps { handle.new.steps ≡ handle.old.steps }
    ensures opening { handle.new.opening ≡ handle.old.opening }
{
    tallies::restarts(handle.owned.owner_mut())
}

/// `vbr_helps` of vbr.h.
#[unsafe(no_mangle)]
pub extern "C" fn vbr_helps(handle: &mut Handle) -> u64
    ensures same { handle.new.owned.member ≡ handle.old.owned.member }
    ensures steps { handle.new.steps ≡ handle.old.steps }
    ensures opening { handle.new.opening ≡ handle.old.opening }
{
    tallies::helps(handle.owned.owner_mut())
}

/// `vbr_map_helps` of vbr.h.
#[unsafe(no_mangle)]
pub extern "C" fn vbr_map_helps(handle: &mut MapHandle) -> u64
    ensures same { handle.new.owned.member ≡ handle.old.owned.member }
    ensures steps { handle.new.steps ≡ handle.old.steps }
    ensures opening { handle.new.opening ≡ handle.old.opening }
{
    tallies::helps(handle.owned.owner_mut())
}

/// `vbr_advances` of vbr.h.
#[unsafe(no_mangle)]
pub extern "C" fn vbr_advances(handle: &mut Handle) -> u64
    ensures same { handle.new.owned.member ≡ handle.old.owned.member }
    ensures steps { handle.new.steps ≡ handle.old.steps }
    ensures opening { handle.new.opening ≡ handle.old.opening }
{
    tallies::advances(handle.owned.owner_mut())
}

/// `vbr_map_advances` of vbr.h.
#[unsafe(no_mangle)]
pub extern "C" fn vbr_map_advances(handle: &mut MapHandle) -> u64
    ensures same { handle.new.owned.member ≡ handle.old.owned.member }
    ensures steps { handle.new.steps ≡ handle.old.steps }
    ensures opening { handle.new.opening ≡ handle.old.opening }
{
    tallies::advances(handle.owned.owner_mut())
}

/// `vbr_free_about` of vbr.h.
#[unsafe(no_mangle)]
pub extern "C" fn vbr_free_about(handle: &mut Handle) -> u32
    ensures same { handle.new.owned.member ≡ handle.old.owned.member }
    ensures most { result ≤ slots_of handle.old.owned.member }
    ensures steps { handle.new.steps ≡ handle.old.steps }
    ensures opening { handle.new.opening ≡ handle.old.opening }
{
    tallies::free_about(handle.owned.owner_mut())
}

/// `vbr_map_free_about` of vbr.h.
#[unsafe(no_mangle)]
pub extern "C" fn vbr_map_free_about(handle: &mut MapHandle) -> u32
    ensures same { handle.new.owned.member ≡ handle.old.owned.member }
    ensures most { result ≤ slots_of handle.old.owned.member }
    ensures steps { handle.new.steps ≡ handle.old.steps }
    ensures opening { handle.new.opening ≡ handle.old.opening }
{
    tallies::free_about(handle.owned.owner_mut())
}
