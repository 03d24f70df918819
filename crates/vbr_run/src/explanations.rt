// What the faults and refusals mean that the program reports, and what helps.
ghost use Rattle.std.specs.Prelude.{◌≡◌, is_some};
ghost use Rattle.vbr_run.specs.Program.{is_explained};

// The explanation by a name.
#[tactic(auto, unfolding(crate::specs::Program::is_explained))]
pub fn explanation(name: &str) -> Option<&'static str>
    ensures { is_some result ≡ is_explained name.now }
{
    match name {
        "shape-1" => Some(SHAPE_1),
        "shape-2" => Some(SHAPE_2),
        "shape-3" => Some(SHAPE_3),
        "script-1" => Some(SCRIPT_1),
        "script-2" => Some(SCRIPT_2),
        "script-3" => Some(SCRIPT_3),
        "script-4" => Some(SCRIPT_4),
        "script-5" => Some(SCRIPT_5),
        "script-6" => Some(SCRIPT_6),
        "read" => Some(READ),
        "file" => Some(FILE),
        "write" => Some(WRITE),
        "memory" => Some(MEMORY),
        "worker" => Some(WORKER),
        "tired" => Some(TIRED),
        "full" => Some(FULL),
        "spent" => Some(SPENT),
        _ => None,
    }
}

const SHAPE_1: &str = "\
vbr_run: shape fault 1

--slots isn't from 1 to 2147483647. A slot holds one key at a time: take the most keys
that the script has at one time, and 64 more for each worker.
";

const SHAPE_2: &str = "\
vbr_run: shape fault 2

--buckets isn't from 1 to 65536. Calls are fastest with about as many buckets as keys,
up to that number.
";

const SHAPE_3: &str = "\
vbr_run: shape fault 3

--last-epoch is 0, or greater than so many slots leave room for. Up to 4095 slots leave
room for 2251799813685247, up to 1048575 for 8796093022207, up to 16777215 for
549755813887, and 2147483647 for 4294967295. Leave the option out: its own value,
549755813887, is taken with any number of slots, and means the greatest where they
leave room for less.
";

const SCRIPT_1: &str = "\
vbr_run: script fault 1 at line M

Line M has neither three words nor the one word sync or renew. A line is a worker, an
operation and a key, as in: 0 insert 5. With --map an insert may have a value after
its key, as in: 0 insert 5 70. There are no comments; lines without words are skipped.
";

const SCRIPT_2: &str = "\
vbr_run: script fault 2 at line M

The first word of line M is no number below the number of workers. Workers are counted
from 0, so three need --workers 3 and are 0, 1 and 2; without the option there is one.
";

const SCRIPT_3: &str = "\
vbr_run: script fault 3 at line M

The second word of line M is none of insert, remove and has, in small letters. With
--map it may be get too, and of these insert alone may have a value after its key.
";

const SCRIPT_4: &str = "\
vbr_run: script fault 4 at line M

The third word of line M is no number from 0 to 18446744073709551615. A key is written
in decimal digits alone, with no sign.
";

const SCRIPT_5: &str = "\
vbr_run: script fault 5 at line M

Line M is one operation above 1000000, or one line above 10000 that ends a phase.
Divide the script, and play its parts one after the other: the later ones begin with
inserts of the keys that the part before has printed.
";

const SCRIPT_6: &str = "\
vbr_run: script fault 6 at line M

The fourth word of line M is no number from 0 to 18446744073709551615. A value is
written in decimal digits alone, with no sign; where none is written, it is 0.
";

const READ: &str = "\
vbr_run: read fault

Standard input failed, is closed, is a directory, or has above 67108864 bytes. Name a
file as the argument, or redirect one: vbr_run < FILE. Divide a script that is too long.
";

const FILE: &str = "\
vbr_run: file fault: WHY: FILE

The file that was named isn't played. WHY is one of these:

no such file       it isn't there, or a folder on the way to it isn't
permission denied  it may not be read
can't be opened    it could not be opened, for another reason
can't be read      it is a directory, or reading failed, or it has above 67108864 bytes

A name that begins with - stands after --, as in: vbr_run -- -a.script
";

const WRITE: &str = "\
vbr_run: write fault

Standard output failed, is closed, is full, or is a pipe that nobody reads any more.
What was written is a beginning of the output. The script was played, and the set is
gone: play it again with an output that takes all.
";

const MEMORY: &str = "\
vbr_run: no memory

Memory was refused for the options, the script, the set, the replies or the output; or,
at a line renew, for the report and the fresh set. Fewer --slots and --buckets help: a
set takes 8 x (2 + buckets + 4 x slots + slots / 64) bytes, and a map 8 x slots more.
";

const WORKER: &str = "\
vbr_run: no worker

A thread for a worker couldn't be started. Fewer --workers help, or a greater limit of
threads (ulimit -u), or a smaller stack for each (ulimit -s).
";

const TIRED: &str = "\
tired

The call made as many steps as --budget lets it, and was refused. A greater --budget
helps; more --buckets do too, since a call then passes fewer keys.
";

const FULL: &str = "\
full

An insert found no slot. More --slots help: the most keys at one time, and 64 for each
worker. Fewer keys do too.
";

const SPENT: &str = "\
spent

An insert needed an epoch above the last. A line renew helps: the set goes on with its
keys at epoch 1. A greater --last-epoch does too.
";
