// Reads an input as far as reply's buffer goes, and writes the answer to it: the table of a column, or a refusal.
#![tactic(auto)]

ghost use Rattle.std.specs.Prelude.{ℕ, List, IfSome, OnOk};
ghost use Rattle.std.specs.Io.KnownBytes.{Appends};
ghost use Rattle.reply.specs.Reply.{AnswersInput};

use std::io;
use std::io::{Read, Write};

// Its errors are those of the reader, with nothing written, and of the writer, which may have taken the first bytes of the reply.
pub fn answer_from<R: Read, W: Write>(input: &mut R, output: &mut W) -> io::Result<()>
    ensures { OnOk result (IfSome (R.remaining input.old) (λ bytes. (text : List ℕ) × AnswersInput bytes text
        × Appends (W.contents output.old) (W.contents output.new) text)) }
{
    let mut start = [0u8; reply::START];
    let count = reading::read_full(input, &mut start)?;
    let reply = reply::reply_to_start(start, count);
    output.write_all(&reply)
}

// The input is standard input, and the output standard output.
pub fn answer(rt: &(impl Input + Print)) -> io::Result<()> {
    answer_from(&mut rt.reader(), &mut io::writer(rt))
}
