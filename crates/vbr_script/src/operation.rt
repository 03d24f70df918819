// The names of the operations.
ghost use Rattle.std.specs.Prelude.{◌≡◌};
ghost use Rattle.vbr_script.specs.Grammar.{operation_of, op_with_value};

use crate::script::Kind;
use vbr_machine::Op;

// The operation that a token names in a script of this kind.
#[tactic(auto, unfolding(crate::specs::Grammar::operation_of))]
pub fn operation(kind: Kind, token: &[u8]) -> Option<Op>
    ensures { result ≡ operation_of kind token.now }
{
    if token == b"insert".as_slice() {
        Some(Op::Insert)
    } else if token == b"remove".as_slice() {
        Some(Op::Remove)
    } else if token == b"has".as_slice() {
        Some(Op::Has)
    } else if kind == Kind::Map && token == b"get".as_slice() {
        Some(Op::Get)
    } else {
        None
    }
}

// The operation of a line that has a value: an insert, or none.
pub fn op_with_value(op: Option<Op>) -> Option<Op>
    ensures { result ≡ op_with_value op }
{
    op.filter(|op| *op == Op::Insert)
}
