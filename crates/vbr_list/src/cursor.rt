//! Where an iteration over all keys stands.
ghost use Rattle.std.specs.Prelude.{◌≡◌, ◌+◌, ◌<◌, ◌^◌, true, false};
ghost use Rattle.vbr_list.specs.look_ups.Cursors.{IsBehindKey, first_cursor, next_bucket};

use crate::seeking::NextNode;

/// Where an iteration over all keys stands: in which bucket, and from which number on. Buckets come in
/// their order, and the keys of a bucket ascend. It is plain: it can be copied, kept, and made by hand,
/// and it belongs to no table.
#[derive(Clone, Copy, Debug, PartialEq, Eq, Hash)]
#[repr(C)]
pub struct Cursor {
    /// The bucket. One that the table doesn't have is behind the last key.
    pub bucket: u32,
    /// The least number that is still to come in it.
    pub from: u64,
}

impl Cursor {
    /// Before the first key.
    #[inline]
    pub fn first() -> Cursor
        ensures { result ≡ first_cursor }
    {
        Cursor { bucket: 0, from: 0 }
    }

    /// A law: its numbers are as small as their types. It does nothing.
    #[inline]
    pub fn law(self)
        ensures bucket { self.bucket < 2 ^ 32 }
        ensures from { self.from < 2 ^ 64 }
    {
        let (_bucket, _from) = (self.bucket, self.from);
    }

    // Before the first key of the next bucket.
    #[inline]
    pub(crate) fn next_bucket(self) -> Cursor
        requires { self.bucket + 1 < 2 ^ 32 }
        ensures { result ≡ next_bucket self }
    {
        Cursor {
            bucket: self.bucket + 1,
            from: 0,
        }
    }

    // Behind a key of the bucket.
    #[inline]
    pub(crate) fn behind(self, key: u64) -> Cursor
        requires { self.bucket + 1 < 2 ^ 32 }
        ensures { IsBehindKey self.bucket key result }
    {
        match key.checked_add(1) {
            Some(from) => Cursor {
                bucket: self.bucket,
                from,
            },
            None => self.next_bucket(),
        }
    }

    // Past a node of the bucket: before the next bucket if it was the last of its list, else right
    // behind its key.
    #[inline]
    pub(crate) fn past(self, node: NextNode) -> Cursor
        requires { self.bucket + 1 < 2 ^ 32 }
        ensures last { node.is_last ≡ true → result ≡ next_bucket self }
        ensures more { node.is_last ≡ false → IsBehindKey self.bucket node.key result }
    {
        if node.is_last {
            self.next_bucket()
        } else {
            self.behind(node.key)
        }
    }
}
