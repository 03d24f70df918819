// A script of a map.
ghost use Rattle.std.specs.Prelude.{◌≡◌, refl};
ghost use Rattle.vbr_script.specs.declared.script.Kind.TheVariants.{Map};
ghost use Rattle.vbr_transcript.specs.Totals.{epoch_in, listed_in, tally_in};
ghost use Rattle.vbr_player.specs.EndLaws.{map_is_played};

use crate::playable::Playable;
use std::alloc::{AllocError, Global};
use vbr_script::Kind;
use vbr_set::MapReport;
use vbr_transcript::{MapTotals, Reply, Tally, layout};
use vbr_words::Entries;

impl Playable for Entries {
    type Totals = MapTotals;

    ghost script = { Map };

    ghost listed = { λ report. report.entries.items };

    ghost epoch = { λ report. report.epoch };

    ghost totals = { λ totals. totals };

    fn script() -> Kind {
        Kind::Map
    }

    fn layout(
        alloc: Global,
        asked: bool,
        replies: &[Reply],
        tally: Tally,
        report: &MapReport,
    ) -> Result<Vec<u8>, AllocError> {
        layout(alloc, asked, replies, tally, &report.entries, report.epoch)
    }

    fn totals(tally: Tally, report: MapReport) -> MapTotals
        ensures tally { tally_in Map result ≡ tally }
        ensures listed { listed_in Map result ≡ report.entries.items }
        ensures epoch { epoch_in Map result ≡ report.epoch }
    {
        MapTotals::new(tally, report.entries, report.epoch)
    }

    ghost asked = { refl };

    ghost opens = { λ shape. refl };

    ghost played = { map_is_played };
}
