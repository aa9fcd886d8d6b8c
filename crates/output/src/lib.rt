// The output's buffer: how much it holds, and how much left it. The fields `gone` and `silent` are private to this crate, so that nothing but `flush` can
// raise the one, and nothing can change the other.
#![tactic(auto)]

ghost use Rattle.std.specs.Prelude.{◌≡◌, true, false, [], ◌≤◌, take, IfOk, OnOk, OnErr, if◌then◌else◌};
ghost use Rattle.std.specs.Io.KnownBytes.{Appends};
ghost use Rattle.output.specs.Output.{out_room, total, Placed};
ghost use Rattle.output.specs.Printed.{Due};
ghost use Rattle.output.specs.Paged.{PageDue};
ghost use Rattle.output.specs.Sent.{leaving, Sent, Part};

use printing::TEXT;
use std::io;
use std::io::{ErrorKind, Write};

// The bytes of the output's buffer.
pub const OUT: usize = 65536;

#[derive(Clone, Copy)]
pub struct Output {
    // how many bytes of the buffer are filled
    pub at: usize,
    // how many bytes left it before these
    gone: u64,
    // whether what leaves it is dropped, and not handed to the writer: the answers of a session of which only the end is to be shown
    silent: bool,
}

// Nothing is filled, and nothing left.
pub fn empty(silent: bool) -> Output
    ensures { (result.at ≡ 0) × (result.gone ≡ 0) × (result.silent ≡ silent) }
{
    Output {
        at: 0,
        gone: 0,
        silent,
    }
}

// Hands bytes to the writer, all of them and in order. A write that fails or takes nothing ends that, and the bytes that were taken before it are the first.
fn write_whole<W: Write>(text: &[u8], writer: &mut W) -> io::Result<()>
    ensures all { OnOk result (Appends (W.contents writer.old) (W.contents writer.new) text.now) }
    ensures part { OnErr result (Part text.now (W.contents writer.old) (W.contents writer.new)) }
{
    let mut done = 0;
    // `done` goes on by what a write took, which no range counts
    while done < text.len() {
        let n = writer.write(&text[done..])?;
        if n == 0 {
            return Err(ErrorKind::WriteZero.into());
        }
        done += n;
    }
    Ok(())
}

// Hands bytes over. A silent output may not.
fn hand<W: Write>(text: &[u8], o: Output, writer: &mut W) -> io::Result<()>
    requires { o.silent ≡ false }
    ensures all { OnOk result (Appends (W.contents writer.old) (W.contents writer.new) text.now) }
    ensures part { OnErr result (Part text.now (W.contents writer.old) (W.contents writer.new)) }
{
    write_whole(text, writer)
}

// Drops what a silent output would hand over, and no other's.
fn lose(o: Output)
    requires { o.silent ≡ true }
{
    let _lost = o;
}

// What leaves the buffer is handed over, or dropped if the output is silent.
fn leave<W: Write>(text: &[u8], o: Output, writer: &mut W) -> io::Result<()>
    ensures all { OnOk result (Appends (W.contents writer.old) (W.contents writer.new) (if o.silent then [] else text.now)) }
    ensures part { OnErr result (Part (if o.silent then [] else text.now) (W.contents writer.old) (W.contents writer.new)) }
{
    if o.silent {
        lose(o);
        return Ok(());
    }
    hand(text, o, writer)
}

// Hands over what the buffer holds, or drops it if the output is silent, and counts it. `Due` says that these bytes are what follows those that left before, so
// that all calls together hand over all that the session prints, in order. The buffer is lent as `&mut`, and nothing is promised of what it holds then, so that
// nothing is handed over twice. Where the writer's bytes are known, they grow by just these; after an error by the first of them.
pub fn flush<W: Write>(out: &mut [u8; OUT], o: Output, writer: &mut W) -> io::Result<Output>
    requires { Due out.old o }
    ensures empty { IfOk result (λ r. (r.at ≡ 0) × (r.gone ≡ total o) × (r.silent ≡ o.silent)) }
    ensures sent { IfOk result (λ r. Sent o out.old r (W.contents writer.old) (W.contents writer.new)) }
    ensures part { OnErr result (Part (leaving o out.old) (W.contents writer.old) (W.contents writer.new)) }
{
    let all: &[u8] = out;
    let at = o.at;
    let text = &all[..at];
    leave(text, o, writer)?;
    let gone = o.gone + text.len() as u64; // as, since std has no From of usize for u64; so below
    Ok(Output {
        at: 0,
        gone,
        silent: o.silent,
    })
}

// Where the text of an answer goes. What the output's buffer holds is handed over first if the text might not fit behind it.
pub fn place<W: Write>(out: &mut [u8; OUT], o: Output, writer: &mut W) -> io::Result<Output>
    requires { Due out.old o }
    ensures placed { IfOk result (λ r. Placed o out.old r out.new) }
    ensures sent { IfOk result (λ r. Sent o out.old r (W.contents writer.old) (W.contents writer.new)) }
    ensures part { OnErr result (Part (leaving o out.old) (W.contents writer.old) (W.contents writer.new)) }
{
    if TEXT <= OUT - o.at {
        return Ok(o);
    }
    let sent = flush(out, o, writer)?;
    Ok(sent)
}

// Hands over what is left, and tells how many bytes left in all. The output is not silent, so that all of them were handed to the writer.
pub fn finish<W: Write>(out: &mut [u8; OUT], o: Output, writer: &mut W) -> io::Result<u64>
    requires { Due out.old o × (o.silent ≡ false) }
    ensures count { IfOk result (λ n. n ≡ total o) }
    ensures all { OnOk result (Appends (W.contents writer.old) (W.contents writer.new) (take o.at out.old)) }
    ensures part { OnErr result (Part (take o.at out.old) (W.contents writer.old) (W.contents writer.new)) }
{
    let last = flush(out, o, writer)?;
    Ok(last.gone)
}

// Hands over the first n bytes of the buffer, a page, and tells how many they are. `PageDue` says that they are the page of the state that a session leaves, and
// that the output is silent: none of the answers was handed over. The buffer is lent as `&mut`, and nothing is promised of what it holds then, so that no page is
// handed over twice.
pub fn show<W: Write>(out: &mut [u8; OUT], n: usize, o: Output, writer: &mut W) -> io::Result<u64>
    requires { (n ≤ out_room) × PageDue (take n out.old) o }
    ensures count { IfOk result (λ k. k ≡ n) }
    ensures all { OnOk result (Appends (W.contents writer.old) (W.contents writer.new) (take n out.old)) }
    ensures part { OnErr result (Part (take n out.old) (W.contents writer.old) (W.contents writer.new)) }
{
    let all: &[u8] = out;
    let text = &all[..n];
    write_whole(text, writer)?;
    Ok(text.len() as u64)
}
