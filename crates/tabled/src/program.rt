//! The command-line program over any reader and writers, and why a run of it failed.
ghost use Rattle.std.specs.Io.KnownBytes.{IsAtEnd};
ghost use Rattle.std.specs.Prelude.{IfErr, IfOk, IfSome, IsErrOf, OnOk, map, string_bytes, ◌↔◌};
ghost use Rattle.std.specs.Prelude.{◌≡◌, ◌≤◌, ◌⊎◌};
ghost use Rattle.tabled.specs.Arguments.{SpellsPlan};
ghost use Rattle.tabled.specs.BlockSent.{Advances, block, block_sent};
ghost use Rattle.tabled.specs.Faults.{line_of, usage, word_of};
ghost use Rattle.tabled.specs.Output.{Begins, PutsOutput};
ghost use Rattle.tabled.specs.Runs.{HasFailed, HasPrinted, HasRead};
ghost use Rattle.tabled.specs.declared.arguments.Plan.{Plan};
ghost use Rattle.tabled.specs.declared.program.Fault.{Fault};
ghost use Rattle.tabled.specs.declared.program.Fault.TheVariants.{Input, Table, Usage};
ghost use Rattle.tabled_base.specs.declared.error.TableError.TheVariants.{Memory};

use crate::arguments::{Plan, plan_of};
use crate::block_buffer::{BLOCK, BlockBuffer};
use crate::block_sink::{BlockSink, BytesSince, WriterStart};
use crate::rendering::render;
use simdutf8::is_utf8;
use std::alloc::Global;
use std::io::{Read, Write};
use std::marker::{Brand, PhantomData};
use tabled_base::TableError;
use tabled_grid::TextSink;

/// The number of reads after which reading fails.
const READS: u64 = 1 << 40;

/// Reads all bytes, which must be UTF-8. Fails at the first error of a read, `Interrupted` too.
fn read_text<I: Read>(alloc: Global, input: &mut I) -> Result<String, Fault>
    ensures text { IfOk result (λ text. HasRead (I.remaining input.old) (I.remaining input.new)
        (string_bytes text)) }
    ensures failed { IfErr result (λ fault. (fault ≡ Input) ⊎ (fault ≡ Table Memory)) }
{
    let mut bytes = Vec::new(alloc);
    let mut block = [0u8; BLOCK];
    'reads: for _read in 0..READS {
        let Ok(count) = input.read(&mut block) else {
            return Err(Fault::Input);
        };
        if count == 0 {
            if !is_utf8(&bytes) {
                return Err(Fault::Input);
            }
            // In range: the bytes are checked above.
            return Ok(unsafe { String::from_utf8_unchecked(bytes) });
        }
        if bytes.extend_from_slice(&block[..count]).is_err() {
            return Err(Fault::Table(TableError::Memory));
        }
    }
    Err(Fault::Input)
}

/// Prints a text as a table under a plan, and a line feed unless the text is empty. Returns the
/// sink with the bytes that are still buffered.
fn print_blocked<'a, W: Write, B: WriterStart>(
    alloc: Global,
    text: &String,
    plan: Plan,
    sink: BlockSink<'a, W>,
) -> (Result<(), TableError>, BlockSink<'a, W>)
    requires name { (block W.contents sink).name ≡ B.name }
    requires held { IfSome (block W.contents sink).contents (λ held. held ≡ B.held) }
    ensures put { PutsOutput plan (string_bytes text.now)
        (block_sent (block W.contents sink.entry)).bytes
        result.0 (block_sent (block W.contents result.1)).bytes }
    ensures advanced { IfSome (block W.contents sink.entry).contents
        (λ _. Advances (block W.contents sink.entry) (block W.contents result.1)) }
{
    let mut since: BytesSince<'a, W, B> = BytesSince {
        sink,
        start: PhantomData,
    };
    let text = text.as_str();
    match render(alloc, text, plan, &mut since) {
        Ok(()) => {}
        Err(error) => return (Err(error), since.sink),
    }
    if text.is_empty() {
        return (Ok(()), since.sink);
    }
    let result = since.write_text("\n");
    (result, since.sink)
}

/// Prints a text to a writer, in blocks. On `Ok` all of it is written, else a beginning.
fn print_through<O: Write>(
    alloc: Global,
    text: &String,
    plan: Plan,
    out: &mut O,
) -> Result<(), TableError>
    ensures { PutsOutput plan (string_bytes text.now) (O.contents out.old) result
        (O.contents out.new) }
{
    let mut held = BlockBuffer::new(alloc)?;
    let sink = BlockSink::new(out, &mut held);
    let (result, mut sink) = print_blocked::<O, Brand>(alloc, text, plan, sink);
    let result = match result {
        Ok(()) => sink.finish(),
        Err(error) => Err(error),
    };
    let BlockSink { writer, .. } = sink;
    // The proof reads the contents of the writer here.
    let _ = &*writer;
    result
}

/// Runs the program. Wrong arguments fail before anything is read.
fn attempt<I: Read, O: Write>(
    alloc: Global,
    words: &[String],
    input: &mut I,
    out: &mut O,
) -> Result<(), Fault>
    ensures usage { IsErrOf result Fault.Usage
        ↔ ((plan : Plan) → ¬ SpellsPlan (map string_bytes words.now) plan) }
    ensures unread { ((plan : Plan) → ¬ SpellsPlan (map string_bytes words.now) plan)
        → (input.new ≡ input.old) × (out.new ≡ out.old) }
    ensures printed { OnOk result ((plan : Plan) × SpellsPlan (map string_bytes words.now) plan
        × HasPrinted plan (I.remaining input.old) (I.remaining input.new) (O.contents out.old)
        (O.contents out.new)) }
    ensures failed { IfErr result (λ fault. (fault ≡ Fault.Usage)
        ⊎ HasFailed O.contents (record {
          arguments = map string_bytes words.now;
          input_before = I.remaining input.old;
          input_after = I.remaining input.new;
          out_before = out.old;
          out_after = out.new;
        }) fault) }
{
    let Some(plan) = plan_of(words) else {
        return Err(Fault::Usage);
    };
    let text = read_text(alloc, input)?;
    print_through(alloc, &text, plan, out)?;
    Ok(())
}

/// Writes a text, up to the first error, `Interrupted` too.
fn write_once<W: Write>(text: &str, writer: &mut W)
    ensures { Begins (W.contents writer.old) (W.contents writer.new) text.now }
{
    let mut rest = text.as_bytes();
    'taken: while !rest.is_empty() {
        match writer.write(rest) {
            Ok(n) if n > 0 => rest = rest.split_at(n).1,
            _ => return,
        }
    }
}

/// Runs the command-line program: prints tab-separated rows as a table and ends with a line feed,
/// or prints nothing if the input is empty. Returns the exit status.
///
/// `words` are the arguments without the program's name, in any order:
/// - `--wrap N`: wraps the cells of a table that is wider than N columns.
/// - `--cut N`: truncates them instead.
/// - `--words`, with `--wrap`: breaks lines between words where possible.
/// - `--priority P`, with `--wrap` or `--cut`: which columns shrink first: `none`, `min`, `max`,
///   `left` or `right`.
/// - `--stream`: prints row by row.
///
/// The table goes to `out`, in blocks. Nothing is written before the whole input is read and
/// checked. The exit status:
/// - 0: the table is printed.
/// - 1: an error. `err` gets its name: `Memory`, `Range`, `Writer`, or `Input` if reading failed or
///   the input is not UTF-8.
/// - 2: wrong arguments. `err` gets the usage, and nothing is read.
///
/// A failed write to `err` is ignored.
pub fn run<I: Read, O: Write, E: Write>(
    alloc: Global,
    words: &[String],
    input: &mut I,
    out: &mut O,
    err: &mut E,
) -> u8
    ensures range { result ≤ 2 }
    ensures usage { result ≡ 2 ↔ ((plan : Plan) → ¬ SpellsPlan (map string_bytes words.now) plan) }
    ensures unread { result ≡ 2 → (input.new ≡ input.old) × (out.new ≡ out.old) }
    ensures printed { result ≡ 0 → (plan : Plan) × SpellsPlan (map string_bytes words.now) plan
        × HasPrinted plan (I.remaining input.old) (I.remaining input.new) (O.contents out.old)
        (O.contents out.new) }
    ensures failed { result ≡ 1 → (fault : Fault)
        × HasFailed O.contents (record {
          arguments = map string_bytes words.now;
          input_before = I.remaining input.old;
          input_after = I.remaining input.new;
          out_before = out.old;
          out_after = out.new;
        }) fault
        × Begins (E.contents err.old) (E.contents err.new) (line_of (word_of fault)) }
    ensures silent { result ≡ 0 → err.new ≡ err.old }
    ensures shown { result ≡ 2 → Begins (E.contents err.old) (E.contents err.new) (line_of usage) }
{
    let Err(fault) = attempt(alloc, words, input, out) else {
        return 0;
    };
    write_once(fault.line(), err);
    match fault {
        Fault::Usage => 2,
        _ => 1,
    }
}

#[derive(Debug, Drop)]
pub(crate) enum Fault {
    /// The arguments are wrong.
    Usage,
    /// Reading failed, or the input is not UTF-8.
    Input,
    /// An error of the library.
    Table(TableError),
}

impl Fault {
    /// Returns the message as a line: the name of the failure, or the usage.
    pub fn line(&self) -> &'static str
        ensures { result.now ≡ line_of (word_of self.now) }
    {
        match self {
            Fault::Usage => {
                "usage: tabprint [--wrap N | --cut N] [--priority none|min|max|left|right] [--words] [--stream]\n"
            }
            Fault::Input => "Input\n",
            Fault::Table(TableError::Memory) => "Memory\n",
            Fault::Table(TableError::ShortWidths) => "ShortWidths\n",
            Fault::Table(TableError::ShortHeights) => "ShortHeights\n",
            Fault::Table(TableError::Narrow { .. }) => "Narrow\n",
            Fault::Table(TableError::Range) => "Range\n",
            Fault::Table(TableError::Writer) => "Writer\n",
        }
    }
}

impl From<TableError> for Fault {
    ghost from_gives = { λ error fault. fault ≡ Table error };

    fn from(error: TableError) -> Fault {
        Fault::Table(error)
    }
}
