// The programs' input and output: from a reader to a writer. A read or a write that fails ends the program with its error.
#![tactic(auto)]

ghost use Rattle.std.specs.Prelude.{◌≡◌, true, false, ◌≤◌, length, take, IfOk, IfSome, OnOk};
ghost use Rattle.std.specs.Io.KnownBytes.{Appends};
ghost use Rattle.printout.specs.Program.{printed, PrintedFor};
ghost use Rattle.printout.specs.Written.{Whole};
ghost use Rattle.console.specs.Turned.{turned, TurnedFor};

use std::io;

// Reads until the buffer is full or the file ends; how many bytes it has put at the start of the buffer, which are the file's first.
pub fn read_full<R: io::Read>(file: &mut R, buffer: &mut [u8]) -> io::Result<usize>
    ensures in_bounds { IfOk result (λ n. n ≤ length buffer.new) }
    ensures bytes { IfOk result (λ n. IfSome (R.remaining file.old) (λ b. take (length buffer.new) b ≡ take n buffer.new)) }
{
    let mut done: usize = 0;
    while done < buffer.len() {
        let n = file.read(&mut buffer[done..])?;
        if n == 0 {
            break;
        }
        done += n;
    }
    Ok(done)
}

// Writes the first k bytes of the text: all that is printed for any file of which the buffer holds the first n bytes, or, where it turns, what any such file turns
// into. (The buffer, n and `turns` are for the contract alone.)
fn write<W: io::Write>(
    out: &mut W,
    buffer: &[u8],
    n: usize,
    text: &[u8],
    k: usize,
    turns: bool,
) -> io::Result<()>
    requires k_in_bounds { k ≤ length text.now }
    requires printed_for { turns ≡ false → PrintedFor buffer.now n (take k text.now) }
    requires turned_for { turns ≡ true → TurnedFor buffer.now n (take k text.now) }
    ensures { OnOk result (Appends (W.contents out.old) (W.contents out.new) (take k text.now)) }
{
    out.write_all(&text[..k])
}

// Answers a bids file. No accepted file has more than 6285 bytes, so that one byte more is enough of any (printout, proofs/Prefix). Where the reader's bytes are
// known, as in memory, the writer gets what is printed for them.
pub fn answer<R: io::Read, W: io::Write>(input: &mut R, out: &mut W) -> io::Result<()>
    ensures { OnOk result (IfSome (R.remaining input.old) (λ b. Appends (W.contents out.old) (W.contents out.new) (printed b))) }
{
    let mut file = [0u8; 6286];
    let n = read_full(input, &mut file)?;
    let mut text = [0u8; 16384];
    let k = printout::lines(&file[..n], &mut text);
    write(out, &file, n, &text, k, false)
}

// The file in the other version, or the line of the refusal, at the start of the buffer; its length.
fn turn(file: &[u8], out: &mut [u8; 16384]) -> usize
    ensures { Whole 16384 out.new result (turned file.now) }
{
    let turned = conversion::turn(file, out);
    match turned {
        Ok(n) => n,
        Err(refusal) => printout::put_refused(out, 0, refusal.number()),
    }
}

// Converts a bids file to the other version. No accepted file of either has more than 6869 bytes. Where the reader's bytes are known, the writer gets what they
// turn into.
pub fn convert<R: io::Read, W: io::Write>(input: &mut R, out: &mut W) -> io::Result<()>
    ensures { OnOk result (IfSome (R.remaining input.old) (λ b. Appends (W.contents out.old) (W.contents out.new) (turned b))) }
{
    let mut file = [0u8; 6870];
    let n = read_full(input, &mut file)?;
    let mut text = [0u8; 16384];
    let k = turn(&file[..n], &mut text);
    write(out, &file, n, &text, k, true)
}
