// A script, answered line by line.
ghost use Rattle.std.specs.Prelude.{◌≡◌, ◌≢◌, ◌≤◌, ◌++◌, Err, length, IfOk, IfErr, OnOk, OnErr, IfSome, None, true, false, codes};
ghost use Rattle.std.specs.Io.KnownBytes.{Appends, Keeps};
ghost use Rattle.record_pages.specs.FieldNames.{name_of};
ghost use Rattle.record_pages.specs.Sizes.{IsPageSize};
ghost use Rattle.script_words.specs.Commands.{command_of};
ghost use Rattle.script_words.specs.Configs.{config_of, faulty};
ghost use Rattle.script_words.specs.Lines.{feeds, is_ready};
ghost use Rattle.scripts.specs.Script.{script_of, reply_to_read, reply_to_line, bad_line, on_config, open_by, on_command, IsWhole, WroteAt};
ghost use Rattle.std.specs.Option.{option_map};
ghost use Rattle.scripts.specs.Own.{seen_of};
ghost use Rattle.scripts.specs.Reading.{Answers, Moves};

use crate::open_script_fault::OpenScriptFault;
use crate::replies::{answer_command, append};
use crate::script_fault::ScriptFault;
use crate::script_lane::ScriptLane;
use crate::scripted::Scripted;
use crate::turn::Turn;
use record_pages::{Config, Field};
use script_words::{LineRead, MAX_LINE_LEN, ReadAhead, parse_command, parse_config};
use std::alloc::{AllocError, Global};
use std::hash::{BuildHasher, BuildHasherDefault, FoldHasher};
use std::io::{Read, Write};

/// The number of the last line that a script may have.
const MAX_LINES: u64 = 4294967295;

/// Appends that a line is bad.
fn append_bad_line(alloc: Global, number: u64, text: &mut Vec<u8>) -> Result<Turn, AllocError>
    ensures text { OnOk result (text.new.items ≡ text.old.items ++ (bad_line number None).text) }
    ensures turn { IfOk result (λ turn. turn ≡ (bad_line number None).turn) }
{
    append(text, b"bad line ")?;
    append(text, number.to_string(alloc)?.as_bytes())?;
    append(text, b"\n")?;
    Ok(Turn::Ends(Scripted::BadLine))
}

/// Appends that a field of the configuration is bad.
fn append_bad_config(field: Field, text: &mut Vec<u8>) -> Result<Turn, AllocError>
    ensures text { OnOk result (text.new.items
        ≡ text.old.items ++ codes "bad config " ++ name_of field ++ codes "\n") }
    ensures turn { IfOk result (λ turn. turn ≡ Turn.Ends Scripted.BadConfig) }
{
    append(text, b"bad config ")?;
    append(text, field.name().as_bytes())?;
    append(text, b"\n")?;
    Ok(Turn::Ends(Scripted::BadConfig))
}

/// Opens the lane of a configuration, unless it has a faulty field.
fn open_lane<const PAGE: usize>(
    alloc: Global,
    config: &Config,
    lane: &mut Option<ScriptLane<PAGE>>,
    text: &mut Vec<u8>,
) -> Result<Turn, AllocError>
    requires page { IsPageSize PAGE }
    requires first { lane.old ≡ None }
    ensures text { OnOk result (text.new.items
        ≡ text.old.items ++ (open_by config.now (faulty config.now)).text) }
    ensures turn { IfOk result (λ turn. turn ≡ (open_by config.now (faulty config.now)).turn) }
    ensures lane { OnOk result (option_map seen_of lane.new ≡ (open_by config.now (faulty config.now)).opened) }
{
    match ScriptLane::open(alloc, config) {
        Ok(opened) => {
            append(text, b"ready\n")?;
            *lane = Some(opened);
            Ok(Turn::GoesOn)
        }
        Err(OpenScriptFault::BadConfig { field }) => append_bad_config(field, text),
        Err(OpenScriptFault::OutOfMemory) => Err(AllocError),
    }
}

/// Answers a command.
fn answer_further<const PAGE: usize, S: BuildHasher + Drop>(
    alloc: Global,
    hash_builder: S,
    number: u64,
    line: &[u8],
    lane: &mut ScriptLane<PAGE>,
    text: &mut Vec<u8>,
) -> Result<Turn, AllocError>
    ensures text { OnOk result (text.new.items
        ≡ text.old.items ++ (on_command PAGE number (seen_of lane.old) (command_of line.now)).text) }
    ensures turn { IfOk result (λ turn. turn
        ≡ (on_command PAGE number (seen_of lane.old) (command_of line.now)).turn) }
    ensures lane { OnOk result (Some (seen_of lane.new)
        ≡ (on_command PAGE number (seen_of lane.old) (command_of line.now)).opened) }
{
    match parse_command(alloc, line)? {
        Some(command) => {
            answer_command(alloc, hash_builder, lane, command, text)?;
            Ok(Turn::GoesOn)
        }
        None => append_bad_line(alloc, number, text),
    }
}

/// Answers what was read: the configuration, a command, a line that is too long or too late, or the end.
fn answer_read<const PAGE: usize, S: BuildHasher + Drop>(
    alloc: Global,
    hash_builder: S,
    number: u64,
    read: LineRead,
    line: &[u8],
    lane: &mut Option<ScriptLane<PAGE>>,
    text: &mut Vec<u8>,
) -> Result<Turn, AllocError>
    requires page { IsPageSize PAGE }
    requires short { length line.now ≤ 4096 }
    ensures text { OnOk result (text.new.items
        ≡ text.old.items ++ (reply_to_read PAGE number (option_map seen_of lane.old) read line.now).text) }
    ensures turn { IfOk result (λ turn. turn
        ≡ (reply_to_read PAGE number (option_map seen_of lane.old) read line.now).turn) }
    ensures lane { OnOk result (option_map seen_of lane.new
        ≡ (reply_to_read PAGE number (option_map seen_of lane.old) read line.now).opened) }
{
    match read {
        LineRead::Line => {
            if number > MAX_LINES {
                return append_bad_line(alloc, number, text);
            }
            match lane {
                Some(opened) => answer_further(alloc, hash_builder, number, line, opened, text),
                None => match parse_config(line) {
                    Some(config) => open_lane(alloc, &config, lane, text),
                    None => append_bad_line(alloc, number, text),
                },
            }
        }
        LineRead::TooLong => append_bad_line(alloc, number, text),
        LineRead::End => match lane {
            Some(_) => Ok(Turn::Ends(Scripted::Ended)),
            None => append_bad_line(alloc, number, text),
        },
    }
}

/// Writes bytes, all of them.
fn write<W: Write>(writer: &mut W, bytes: &[u8]) -> Result<(), ScriptFault>
    ensures ok { OnOk result (Appends (W.contents writer.old) (W.contents writer.new) bytes.now) }
    ensures err { OnErr result (result ≡ Err ScriptFault.WriteFault) }
{
    match writer.write_all(bytes) {
        Ok(()) => Ok(()),
        Err(_) => Err(ScriptFault::WriteFault),
    }
}

/// Has what was written go out, unless it did.
fn tell<W: Write>(writer: &mut W, is_told: &mut bool) -> Result<(), ScriptFault>
    ensures kept { Keeps (W.contents writer.old) (W.contents writer.new) }
    ensures err { OnErr result (result ≡ Err ScriptFault.WriteFault) }
{
    if !*is_told {
        match writer.flush() {
            Ok(()) => {}
            Err(_) => return Err(ScriptFault::WriteFault),
        }
        *is_told = true;
    }
    Ok(())
}

/// Reads until a line can be taken. What was written goes out before each read.
fn make_ready<R: Read, W: Write>(
    reader: &mut R,
    writer: &mut W,
    ahead: &mut ReadAhead<MAX_LINE_LEN>,
    is_told: &mut bool,
) -> Result<(), ScriptFault>
    ensures ready { OnOk result (is_ready ahead.new ≡ true) }
    ensures few { length ahead.new.bytes ≤ 8192 }
    ensures moves { Moves ahead.old (R.remaining reader.old) ahead.new (R.remaining reader.new) }
    ensures kept { Keeps (W.contents writer.old) (W.contents writer.new) }
    ensures unfed { IfErr result (λ fault. fault ≡ ScriptFault.ReadFault
        → (feeds ahead.new.bytes ≡ 0) × (ahead.new.over ≡ false)) }
{
    while !ahead.is_ready() {
        tell(writer, is_told)?;
        ahead.fill(reader)?;
    }
    Ok(())
}

/// Room for a line and for its reply, which serves one line after another.
#[derive(Drop)]
struct Buffers {
    line: Vec<u8>,
    text: Vec<u8>,
}

/// Takes the next line, and answers it.
fn answer_next<const PAGE: usize, S: BuildHasher + Drop, W: Write>(
    alloc: Global,
    hash_builder: S,
    number: u64,
    ahead: &mut ReadAhead<MAX_LINE_LEN>,
    lane: &mut Option<ScriptLane<PAGE>>,
    buffers: &mut Buffers,
    writer: &mut W,
) -> Result<Turn, ScriptFault>
    requires page { IsPageSize PAGE }
    requires ready { is_ready ahead.old ≡ true }
    ensures ok { IfOk result (λ turn. Answers PAGE number
        (option_map seen_of lane.old) (option_map seen_of lane.new)
        ahead.old ahead.new (W.contents writer.old) (W.contents writer.new) turn) }
    ensures memory { IfErr result (λ fault. fault ≡ ScriptFault.OutOfMemory
        → Keeps (W.contents writer.old) (W.contents writer.new)) }
    ensures err { IfErr result (λ fault. fault ≢ ScriptFault.ReadFault) }
{
    let Buffers { line, text } = buffers;
    let read = ahead.take_line(line)?;
    text.clear();
    let turn = answer_read(alloc, hash_builder, number, read, line, lane, text)?;
    write(writer, text)?;
    Ok(turn)
}

/// Answers a script: reads it line by line, and writes the reply to each line and nothing else.
///
/// If it answers, what it wrote is all that a script of the reader's bytes writes, and the answer
/// says how the script ended. At `ReadFault` it wrote just the replies of the lines that were whole in
/// what it read, at `OutOfMemory` those of the lines before the one that met it; after `WriteFault`
/// nothing is said of the output. It flushes the writer before a read if a reply was written since,
/// so whoever waits for a reply gets it. It reads ahead, so the reader may be left past the script's end,
/// and it writes once a line, so give it a writer with a buffer. It takes memory for one line, what was
/// read ahead, the lane and its calls.
/// Its verdicts are for keys that were not picked to be slow: they hash keys by a seed that anyone can read.
pub fn run_script<const PAGE: usize, R: Read, W: Write>(
    alloc: Global,
    reader: &mut R,
    writer: &mut W,
) -> Result<Scripted, ScriptFault>
    requires { IsPageSize PAGE }
    ensures ok { IfOk result (λ ending. IfSome (R.remaining reader.old) (λ bytes.
        IsWhole (W.contents writer.old) (W.contents writer.new) ending (script_of PAGE bytes))) }
    ensures err { IfErr result (λ fault. IfSome (R.remaining reader.old) (λ bytes.
        WroteAt PAGE bytes (R.remaining reader.new)
        (W.contents writer.old) (W.contents writer.new) fault)) }
{
    let known: BuildHasherDefault<FoldHasher> = BuildHasherDefault::new();
    match run_script_with_hasher::<PAGE, _, R, W>(alloc, known, reader, writer) {
        Ok(scripted) => Ok(scripted),
        Err(fault) => Err(fault),
    }
}

/// The same with verdicts whose tables hash keys as they are told, as by a seed that is drawn when the
/// program starts and that whoever wrote the script did not know.
pub fn run_script_with_hasher<const PAGE: usize, S: BuildHasher + Copy, R: Read, W: Write>(
    alloc: Global,
    hash_builder: S,
    reader: &mut R,
    writer: &mut W,
) -> Result<Scripted, ScriptFault>
    requires { IsPageSize PAGE }
    ensures ok { IfOk result (λ ending. IfSome (R.remaining reader.old) (λ bytes.
        IsWhole (W.contents writer.old) (W.contents writer.new) ending (script_of PAGE bytes))) }
    ensures err { IfErr result (λ fault. IfSome (R.remaining reader.old) (λ bytes.
        WroteAt PAGE bytes (R.remaining reader.new)
        (W.contents writer.old) (W.contents writer.new) fault)) }
{
    let mut ahead: ReadAhead<MAX_LINE_LEN> = ReadAhead::new(alloc);
    let mut buffers = Buffers {
        line: Vec::new(alloc),
        text: Vec::new(alloc),
    };
    let mut lane: Option<ScriptLane<PAGE>> = None;
    let mut is_told = true;
    for number in 1..u64::MAX {
        if let Err(fault) = make_ready(reader, writer, &mut ahead, &mut is_told) {
            return Err(fault);
        }
        match answer_next(
            alloc,
            hash_builder,
            number,
            &mut ahead,
            &mut lane,
            &mut buffers,
            writer,
        ) {
            Ok(Turn::GoesOn) => is_told = false,
            Ok(Turn::Ends(ending)) => return Ok(ending),
            Err(fault) => return Err(fault),
        }
    }
    // Each line but the last has a line feed, and no input has that many bytes.
    unreachable!()
}
