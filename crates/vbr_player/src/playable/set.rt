// A script of a set.
ghost use Rattle.std.specs.Prelude.{◌≡◌, refl};
ghost use Rattle.vbr_script.specs.declared.script.Kind.TheVariants.{Set};
ghost use Rattle.vbr_transcript.specs.Totals.{epoch_in, listed_in, tally_in};
ghost use Rattle.vbr_player.specs.EndLaws.{set_is_played};

use crate::playable::Playable;
use std::alloc::{AllocError, Global};
use vbr_script::Kind;
use vbr_set::Report;
use vbr_transcript::{Reply, Tally, Totals, layout};
use vbr_words::Keys;

impl Playable for Keys {
    type Totals = Totals;

    ghost script = { Set };

    ghost listed = { λ report. report.keys.items };

    ghost epoch = { λ report. report.epoch };

    ghost totals = { λ totals. totals };

    fn script() -> Kind {
        Kind::Set
    }

    fn layout(
        alloc: Global,
        asked: bool,
        replies: &[Reply],
        tally: Tally,
        report: &Report,
    ) -> Result<Vec<u8>, AllocError> {
        layout(alloc, asked, replies, tally, &report.keys, report.epoch)
    }

    fn totals(tally: Tally, report: Report) -> Totals
        ensures tally { tally_in Set result ≡ tally }
        ensures listed { listed_in Set result ≡ report.keys.items }
        ensures epoch { epoch_in Set result ≡ report.epoch }
    {
        Totals::new(tally, report.keys, report.epoch)
    }

    ghost asked = { refl };

    ghost opens = { λ shape. refl };

    ghost played = { set_is_played };
}
