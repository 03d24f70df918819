// The calls on a set.
ghost use Rattle.vbr_script.specs.declared.script.Kind.TheVariants.{Set};

use crate::asking::Asked;
use crate::asking::replying::reply_told;
use vbr_machine::Op;
use vbr_script::Line;
use vbr_set::VbrSetRef;
use vbr_transcript::Reply;
use vbr_words::Keys;

impl Asked for Keys {
    ghost KIND = { Set };

    fn ask(caller: &mut VbrSetRef, line: &Line, budget: u32) -> Reply {
        match line.op {
            Op::Insert => reply_told(caller.insert(line.key, budget)),
            Op::Remove => reply_told(caller.remove(line.key, budget)),
            Op::Has => reply_told(caller.has(line.key, budget)),
            Op::Get => unreachable!(),
        }
    }
}
