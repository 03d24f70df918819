//! Writing by a loop over `write`.
ghost use Rattle.std.specs.Prelude.{OnOk, OnErr};
ghost use Rattle.std.specs.List.{flat_map};
ghost use Rattle.std.specs.Io.KnownBytes.{Appends};
ghost use Rattle.vbr_transcript.specs.Writing.{AppendsSome};

use std::io::Write;

/// A write that failed, or took nothing.
#[derive(Clone, Copy, Debug, PartialEq, Eq)]
pub struct WriteFault;

// Writes all of the text. After a fault the writer holds a beginning of it.
fn write_text<W: Write>(writer: &mut W, text: &[u8]) -> Result<(), WriteFault>
    ensures ok { OnOk result (Appends (W.contents writer.old) (W.contents writer.new) text.now) }
    ensures fault { OnErr result
        (AppendsSome (W.contents writer.old) (W.contents writer.new) text.now) }
{
    let mut from = 0;
    while from < text.len() {
        match writer.write(&text[from..]) {
            Ok(n) if n > 0 => from += n,
            _ => return Err(WriteFault),
        }
    }
    Ok(())
}

/// Writes all of the text, and flushes. After a fault the writer holds a beginning of the text.
pub fn write_whole<W: Write>(writer: &mut W, text: &[u8]) -> Result<(), WriteFault>
    ensures ok { OnOk result (Appends (W.contents writer.old) (W.contents writer.new) text.now) }
    ensures fault { OnErr result
        (AppendsSome (W.contents writer.old) (W.contents writer.new) text.now) }
{
    write_text(writer, text)?;
    match writer.flush() {
        Ok(()) => Ok(()),
        Err(_) => Err(WriteFault),
    }
}

/// Writes one text after another, as far as it can.
pub fn write_pieces<W: Write>(writer: &mut W, pieces: &[&[u8]])
    ensures { AppendsSome (W.contents writer.old) (W.contents writer.new)
        (flat_map (λ piece. piece.now) pieces.now) }
{
    for piece in pieces {
        match write_text(writer, piece) {
            Ok(()) => {}
            Err(WriteFault) => return,
        }
    }
}
