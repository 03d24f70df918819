//! The numbers of a report, as they cross to C.
ghost use Rattle.std.specs.Prelude.{◌≡◌};

/// What a closed set or map held: the report of vbr.h, which says what each number is.
#[repr(C)]
#[derive(Clone, Copy)]
pub struct ReportNumbers {
    pub epoch: u64,
    pub live: u32,
    pub marked: u32,
    pub free: u32,
}

impl ReportNumbers {
    // The numbers of a report, of a set or of a map.
    pub(crate) fn new(epoch: u64, live: u32, marked: u32, free: u32) -> ReportNumbers
        ensures { result ≡ record { epoch = epoch; live = live; marked = marked; free = free } }
    {
        ReportNumbers {
            epoch,
            live,
            marked,
            free,
        }
    }
}
