//! Which value a store gives a key.
ghost use Rattle.std.specs.Prelude.{◌≡◌};
ghost use Rattle.vbr_list.specs.updates.NewValues.{value_after};

/// Which value a store gives a key.
#[derive(Clone, Copy)]
pub(crate) enum NewValue {
    /// This one, whatever is there.
    Exactly(u64),
    /// The value that is there and this one, added modulo 2^64; this one alone if the key is absent.
    Sum(u64),
}

impl NewValue {
    /// The value that the key gets if this is there: the value that it has, or none if it is absent.
    #[inline(always)]
    pub(crate) fn after(self, there: Option<u64>) -> u64
        ensures { result ≡ value_after self there }
    {
        match (self, there) {
            (NewValue::Exactly(value), _) | (NewValue::Sum(value), None) => value,
            (NewValue::Sum(delta), Some(old)) => old.wrapping_add(delta),
        }
    }
}
