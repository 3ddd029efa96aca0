// Answers to bytes.
ghost use Rattle.std.specs.Prelude.{◌≡◌, ◌+◌, ◌<◌, ◌++◌, ◌∷◌, [], OnOk, OnErr, map, length, codes, decimal, take, List, ℕ};
ghost use Rattle.std.specs.List.{concat};
ghost use Rattle.arrayvec.specs.ArrayVec.{array_vec_len};
ghost use Rattle.memcached_text.specs.Answers.{value_text, number_text, ttl_text, hit_text, said, flag_text, flags_text, marks_text, status_text, block_text, meta_text, line_text, answer_text};

use crate::meta::letter;
use crate::meta_answer::{MetaAnswer, MetaFields, MetaMarks, MetaStatus, Ttl};
use crate::text_answer::{TextAnswer, ValueFound};
use crate::words::words_in;
use arrayvec::{ArrayVec, CapacityError};
use itoa::Buffer;

/// The most bytes that `AnswerBytes` holds.
pub const MAX_ANSWER_LEN: usize = 4096;

/// Room for bytes of answers. It is part of its owner: no memory is asked for it.
pub type AnswerBytes = ArrayVec<u8, MAX_ANSWER_LEN>;

/// Appends pieces of bytes. If they do not fit, nothing is appended.
fn append_all(out: &mut AnswerBytes, pieces: &[&[u8]]) -> Result<(), CapacityError>
    ensures ok { OnOk result (out.new.items ≡ out.old.items ++ concat (map (λ p. p.now) pieces.now)) }
    ensures err { OnErr result (out.new.items ≡ out.old.items) }
    ensures full { OnErr result (4096 < array_vec_len out.old + length (concat (map (λ p. p.now) pieces.now))) }
{
    let start = out.len();
    for piece in pieces {
        let Ok(()) = out.try_extend_from_slice(piece) else {
            out.truncate(start);
            return Err(CapacityError::new(()));
        };
    }
    Ok(())
}

/// Appends a value that was found, with its data block.
fn append_value(out: &mut AnswerBytes, found: &ValueFound<'_>) -> Result<(), CapacityError>
    ensures ok { OnOk result (out.new.items ≡ out.old.items ++ value_text found.now.key.now found.now.flags found.now.cas found.now.data.now) }
    ensures err { OnErr result (out.new.items ≡ out.old.items) }
    ensures full { OnErr result (4096 < array_vec_len out.old + length (value_text found.now.key.now found.now.flags found.now.cas found.now.data.now)) }
{
    let mut flags_digits = Buffer::new();
    let flags = flags_digits.format(found.flags).as_bytes();
    let mut length_digits = Buffer::new();
    let length = length_digits.format(found.data.len()).as_bytes();
    match found.cas {
        None => append_all(
            out,
            &[
                b"VALUE ", found.key, b" ", flags, b" ", length, b"\r\n", found.data, b"\r\n",
            ],
        ),
        Some(cas) => {
            let mut cas_digits = Buffer::new();
            let cas = cas_digits.format(cas).as_bytes();
            append_all(
                out,
                &[
                    b"VALUE ", found.key, b" ", flags, b" ", length, b" ", cas, b"\r\n",
                    found.data, b"\r\n",
                ],
            )
        }
    }
}

/// Appends a letter with a number, if there is one.
fn append_number(
    out: &mut AnswerBytes,
    letter_text: &[u8],
    number: Option<u64>,
) -> Result<(), CapacityError>
    ensures ok { OnOk result (out.new.items ≡ out.old.items ++ number_text letter_text.now number) }
    ensures err { OnErr result (out.new.items ≡ out.old.items) }
    ensures full { OnErr result (4096 < array_vec_len out.old + length (number_text letter_text.now number)) }
{
    match number {
        None => Ok(()),
        Some(number) => {
            let mut digits = Buffer::new();
            append_all(out, &[letter_text, digits.format(number).as_bytes()])
        }
    }
}

/// Appends how long an item lives.
fn append_ttl(out: &mut AnswerBytes, ttl: Option<Ttl>) -> Result<(), CapacityError>
    ensures ok { OnOk result (out.new.items ≡ out.old.items ++ ttl_text ttl) }
    ensures err { OnErr result (out.new.items ≡ out.old.items) }
    ensures full { OnErr result (4096 < array_vec_len out.old + length (ttl_text ttl)) }
{
    match ttl {
        None => Ok(()),
        Some(Ttl::Unlimited) => append_all(out, &[b" t-1"]),
        Some(Ttl::Seconds(seconds)) => append_number(out, b" t", Some(u64::from(seconds))),
    }
}

/// Appends whether an item was hit before.
fn append_hit(out: &mut AnswerBytes, was_hit: Option<bool>) -> Result<(), CapacityError>
    ensures ok { OnOk result (out.new.items ≡ out.old.items ++ hit_text was_hit) }
    ensures err { OnErr result (out.new.items ≡ out.old.items) }
    ensures full { OnErr result (4096 < array_vec_len out.old + length (hit_text was_hit)) }
{
    match was_hit {
        None => Ok(()),
        Some(false) => append_all(out, &[b" h0"]),
        Some(true) => append_all(out, &[b" h1"]),
    }
}

/// A text, if it is to be said.
fn said<'a>(is_said: bool, text: &'a [u8]) -> &'a [u8]
    ensures { result.now ≡ said is_said text.now }
{
    if is_said { text } else { &[] }
}

/// A number in 64 bits.
fn wide(number: Option<u32>) -> Option<u64>
    ensures { result ≡ number }
{
    match number {
        None => None,
        Some(number) => Some(u64::from(number)),
    }
}

/// Appends what a flag of the request asks to be returned.
#[tactic(auto, unfolding(crate::specs::Answers::flag_text))]
fn append_flag(
    out: &mut AnswerBytes,
    fields: &MetaFields<'_>,
    flag: &[u8],
) -> Result<(), CapacityError>
    ensures ok { OnOk result (out.new.items ≡ out.old.items ++ flag_text fields.now flag.now) }
    ensures err { OnErr result (out.new.items ≡ out.old.items) }
    ensures full { OnErr result (4096 < array_vec_len out.old + length (flag_text fields.now flag.now)) }
{
    let letter = letter(flag);
    if letter == b'k' {
        append_all(out, &[b" k", fields.key, said(fields.is_base64, b" b")])
    } else if letter == b'O' {
        append_all(out, &[b" ", flag])
    } else if letter == b'c' {
        append_number(out, b" c", fields.cas)
    } else if letter == b'f' {
        append_number(out, b" f", wide(fields.flags))
    } else if letter == b's' {
        append_number(out, b" s", wide(fields.size))
    } else if letter == b'l' {
        append_number(out, b" l", wide(fields.last_used))
    } else if letter == b't' {
        append_ttl(out, fields.ttl)
    } else if letter == b'h' {
        append_hit(out, fields.was_hit)
    } else {
        Ok(())
    }
}

/// Appends what these flags ask to be returned. If they do not fit, nothing is appended.
fn append_flags(
    out: &mut AnswerBytes,
    fields: &MetaFields<'_>,
    flags: &[&[u8]],
) -> Result<(), CapacityError>
    ensures ok { OnOk result (out.new.items ≡ out.old.items ++ concat (map (flag_text fields.now) (map (λ f. f.now) flags.now))) }
    ensures err { OnErr result (out.new.items ≡ out.old.items) }
    ensures full { OnErr result (4096 < array_vec_len out.old + length (concat (map (flag_text fields.now) (map (λ f. f.now) flags.now)))) }
{
    let start = out.len();
    for flag in flags {
        let Ok(()) = append_flag(out, fields, flag) else {
            out.truncate(start);
            return Err(CapacityError::new(()));
        };
    }
    Ok(())
}

/// Appends how a command went.
fn append_status(out: &mut AnswerBytes, status: &MetaStatus<'_>) -> Result<(), CapacityError>
    ensures ok { OnOk result (out.new.items ≡ out.old.items ++ status_text status.now) }
    ensures err { OnErr result (out.new.items ≡ out.old.items) }
    ensures full { OnErr result (4096 < array_vec_len out.old + length (status_text status.now)) }
{
    match status {
        MetaStatus::Header => append_all(out, &[b"HD"]),
        MetaStatus::Value(block) => append_number(out, b"VA ", Some(block.len() as u64)),
        MetaStatus::Miss => append_all(out, &[b"EN"]),
        MetaStatus::NotFound => append_all(out, &[b"NF"]),
        MetaStatus::NotStored => append_all(out, &[b"NS"]),
        MetaStatus::Exists => append_all(out, &[b"EX"]),
    }
}

/// Appends what is said unasked, and the line's end.
fn append_marks(out: &mut AnswerBytes, marks: &MetaMarks) -> Result<(), CapacityError>
    ensures ok { OnOk result (out.new.items ≡ out.old.items ++ marks_text marks.now ++ codes "\r\n") }
    ensures err { OnErr result (out.new.items ≡ out.old.items) }
    ensures full { OnErr result (4096 < array_vec_len out.old + length (marks_text marks.now ++ codes "\r\n")) }
{
    append_all(
        out,
        &[
            said(marks.is_awaited, b" Z"),
            said(marks.is_stale, b" X"),
            said(marks.has_won, b" W"),
            b"\r\n",
        ],
    )
}

/// Appends the data block, if there is one.
fn append_block(out: &mut AnswerBytes, status: &MetaStatus<'_>) -> Result<(), CapacityError>
    ensures ok { OnOk result (out.new.items ≡ out.old.items ++ block_text status.now) }
    ensures err { OnErr result (out.new.items ≡ out.old.items) }
    ensures full { OnErr result (4096 < array_vec_len out.old + length (block_text status.now)) }
{
    match status {
        MetaStatus::Value(block) => append_all(out, &[block, b"\r\n"]),
        MetaStatus::Header => Ok(()),
        MetaStatus::Miss => Ok(()),
        MetaStatus::NotFound => Ok(()),
        MetaStatus::NotStored => Ok(()),
        MetaStatus::Exists => Ok(()),
    }
}

/// Appends the answer to a meta command. If it does not fit, what was there stays at the front.
fn append_parts(out: &mut AnswerBytes, answer: &MetaAnswer<'_>) -> Result<(), CapacityError>
    ensures ok { OnOk result (out.new.items ≡ out.old.items ++ meta_text answer.now) }
    ensures err { OnErr result (take (array_vec_len out.old) out.new.items ≡ out.old.items) }
    ensures full { OnErr result (4096 < array_vec_len out.old + length (meta_text answer.now)) }
{
    let flags = words_in(answer.flags);
    let Ok(()) = append_status(out, &answer.status) else {
        return Err(CapacityError::new(()));
    };
    let Ok(()) = append_flags(out, &answer.fields, &flags) else {
        return Err(CapacityError::new(()));
    };
    let Ok(()) = append_marks(out, &answer.marks) else {
        return Err(CapacityError::new(()));
    };
    append_block(out, &answer.status)
}

/// Appends the answer to a meta command. If it does not fit, nothing is appended.
fn append_meta(out: &mut AnswerBytes, answer: &MetaAnswer<'_>) -> Result<(), CapacityError>
    ensures ok { OnOk result (out.new.items ≡ out.old.items ++ meta_text answer.now) }
    ensures err { OnErr result (out.new.items ≡ out.old.items) }
    ensures full { OnErr result (4096 < array_vec_len out.old + length (meta_text answer.now)) }
{
    let start = out.len();
    match append_parts(out, answer) {
        Ok(()) => Ok(()),
        Err(refused) => {
            out.truncate(start);
            Err(refused)
        }
    }
}

/// Appends a line of fixed words.
fn append_line(out: &mut AnswerBytes, words: &[u8]) -> Result<(), CapacityError>
    ensures ok { OnOk result (out.new.items ≡ out.old.items ++ line_text words.now) }
    ensures err { OnErr result (out.new.items ≡ out.old.items) }
    ensures full { OnErr result (4096 < array_vec_len out.old + length (line_text words.now)) }
{
    append_all(out, &[words, b"\r\n"])
}

/// Appends the bytes of an answer. If they do not fit into what is left of the room, nothing is appended.
pub fn append_answer(out: &mut AnswerBytes, answer: &TextAnswer<'_>) -> Result<(), CapacityError>
    ensures ok { OnOk result (out.new.items ≡ out.old.items ++ answer_text answer.now) }
    ensures err { OnErr result (out.new.items ≡ out.old.items) }
    ensures full { OnErr result (4096 < array_vec_len out.old + length (answer_text answer.now)) }
{
    match answer {
        TextAnswer::Value(found) => append_value(out, found),
        TextAnswer::Reply(reply) => append_line(out, reply.text().as_bytes()),
        TextAnswer::Refused(fault) => append_line(out, fault.text().as_bytes()),
        TextAnswer::Number(number) => {
            let mut digits = Buffer::new();
            append_line(out, digits.format(*number).as_bytes())
        }
        TextAnswer::Version(version) => append_all(out, &[b"VERSION ", version, b"\r\n"]),
        TextAnswer::Stat { name, value } => append_all(
            out,
            &[b"STAT ", name, b" ", value, b"\r\n"],
        ),
        TextAnswer::Meta(answer) => append_meta(out, answer),
    }
}
