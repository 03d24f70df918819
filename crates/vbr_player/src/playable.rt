// What a script is played on, a set or a map: how its text is laid out, and which totals there are.
ghost use Rattle.std.specs.Prelude.{◌≡◌, ℕ, List, [], IfOk};
ghost use Rattle.vbr_words.specs.Dimensions.{Dimensions};
ghost use Rattle.vbr_script.specs.declared.script.Kind.{Kind as ScriptKind};
ghost use Rattle.vbr_transcript.specs.Contents.{Item as Listed};
ghost use Rattle.vbr_transcript.specs.Layout.{listed_text, text_of};
ghost use Rattle.vbr_transcript.specs.Totals.{TotalsOf, epoch_in, listed_in, tally_in};
ghost use Rattle.vbr_player.specs.EndLaws.{IsPlayedAs};
ghost use Rattle.vbr_player.specs.Playing.{start_for};

mod map;
mod set;

use crate::asking::Asked;
use std::alloc::{AllocError, Global};
use vbr_set::Kind;
use vbr_transcript::{Reply, Tally};

/// Nodes of a kind that a script is played on: those of a set, or of a map.
pub trait Playable: Asked + Kind {
    /// The totals of a run.
    type Totals: Drop;

    ghost script: { ScriptKind };

    ghost listed: { Self.Report → List (Listed script) };

    ghost epoch: { Self.Report → ℕ };

    ghost totals: { Self.Totals → TotalsOf script };

    /// The kind of a script for it.
    fn script() -> vbr_script::Kind
        ensures { result ≡ script };

    /// The text of a run.
    fn layout(
        alloc: Global,
        asked: bool,
        replies: &[Reply],
        tally: Tally,
        report: &Self::Report,
    ) -> Result<Vec<u8>, AllocError>
        ensures { IfOk result (λ text. text.items ≡ text_of asked replies.now tally
            (listed_text script (listed report.now)) (epoch report.now)) };

    /// The totals of a run, by its counts and by what was there in the end.
    fn totals(tally: Tally, report: Self::Report) -> Self::Totals
        ensures tally { tally_in script (totals result) ≡ tally }
        ensures listed { listed_in script (totals result) ≡ listed report }
        ensures epoch { epoch_in script (totals result) ≡ epoch report };

    ghost asked: { Self.Asked.KIND ≡ script };

    ghost opens: { (shape : Dimensions) → Self.Kind.kind.start shape [] ≡ start_for script shape };

    ghost played: { IsPlayedAs Self.Kind.kind script listed epoch };
}
