// What lines are asked of, a set or a map: how a line's call is made, and what its answer says.
ghost use Rattle.vbr_script.specs.Scripts.{MayAsk};
ghost use Rattle.vbr_script.specs.declared.script.Kind.{Kind};
ghost use Rattle.vbr_player.specs.Calling.{IsCalled};

mod map;
mod replying;
mod set;

use vbr_script::Line;
use vbr_set::VbrSetRef;
use vbr_transcript::Reply;
use vbr_words::Nodes;

/// Nodes of a kind that lines are asked of: those of a set, or of a map.
pub trait Asked: Nodes + Sized {
    ghost KIND: { Kind };

    /// Makes the call of a line, and gives its reply.
    fn ask(caller: &mut VbrSetRef<Self>, line: &Line, budget: u32) -> Reply
        requires { MayAsk KIND line.now.op line.now.value }
        ensures { IsCalled KIND budget (line.now, result) caller.old caller.new };
}
