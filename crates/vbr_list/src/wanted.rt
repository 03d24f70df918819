//! What has to be there for a store to change the map.
ghost use Rattle.std.specs.Prelude.{◌≡◌};
ghost use Rattle.vbr_list.specs.updates.Wanted.{wants};

/// What has to be there for a store to change the map.
#[derive(Clone, Copy, Debug, PartialEq, Eq)]
pub enum Wanted {
    /// Nothing: the key is absent.
    Absent,
    /// The key, with any value.
    Present,
    /// Whatever is there: the key is absent, or has any value.
    Anything,
    /// The key with this value.
    Value(u64),
}

impl Wanted {
    /// Whether this is as wanted: the value that a key has, or none if it is absent.
    #[inline(always)]
    pub fn wants(self, there: Option<u64>) -> bool
        ensures { result ≡ wants self there }
    {
        match (self, there) {
            (Wanted::Absent, None) | (Wanted::Present, Some(_)) | (Wanted::Anything, _) => true,
            (Wanted::Value(value), Some(old)) => value == old,
            _ => false,
        }
    }
}
