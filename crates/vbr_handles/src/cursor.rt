//! Where a walk through handles stands, as it crosses to C.
ghost use Rattle.std.specs.Prelude.{◌≡◌};
ghost use Rattle.vbr_handles.specs.Iterating.{began_elsewhere, place_in_set};

use vbr_set::Cursor;

/// Where a walk through handles stands, and on which opening it began: a [`Cursor`] with the number of
/// the opening. All zeros are before the first key. It is plain: it can be copied, kept, and made by hand.
#[repr(C)]
#[derive(Clone, Copy, Debug, PartialEq, Eq)]
pub struct HandleCursor {
    /// The bucket.
    pub bucket: u32,
    /// The number of the opening ([`crate::openings`]), or 0 before the first call.
    pub opening: u32,
    /// The least number that is still to come in the bucket.
    pub from: u64,
}

impl HandleCursor {
    // Where it stands in its set.
    #[inline]
    pub(crate) fn place(&self) -> Cursor
        ensures { result ≡ place_in_set self.now }
    {
        Cursor {
            bucket: self.bucket,
            from: self.from,
        }
    }

    // Whether its walk began, and on another opening than this.
    #[inline]
    pub(crate) fn began_elsewhere(&self, opening: u32) -> bool
        ensures { result ≡ began_elsewhere opening self.now }
    {
        self.opening != 0 && self.opening != opening
    }

    // Puts it where the walk stands now, on this opening.
    #[inline]
    pub(crate) fn come_to(&mut self, place: Cursor, opening: u32)
        ensures place { place_in_set self.new ≡ place }
        ensures opening { self.new.opening ≡ opening }
    {
        *self = HandleCursor {
            bucket: place.bucket,
            opening,
            from: place.from,
        };
    }
}
