// The calls on a map.
ghost use Rattle.vbr_script.specs.declared.script.Kind.TheVariants.{Map};

use crate::asking::Asked;
use crate::asking::replying::{reply_given, reply_told};
use vbr_machine::Op;
use vbr_script::Line;
use vbr_set::VbrMapRef;
use vbr_transcript::Reply;
use vbr_words::Entries;

impl Asked for Entries {
    ghost KIND = { Map };

    fn ask(caller: &mut VbrMapRef, line: &Line, budget: u32) -> Reply {
        match line.op {
            Op::Insert => reply_told(caller.insert(line.key, line.value, budget)),
            Op::Remove => reply_given(caller.remove(line.key, budget)),
            Op::Has => reply_told(caller.has(line.key, budget)),
            Op::Get => reply_given(caller.get(line.key, budget)),
        }
    }
}
