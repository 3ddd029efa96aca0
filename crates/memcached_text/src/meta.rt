// The meta commands that name a key, and their flags.
ghost use Rattle.std.specs.Prelude.{◌≡◌, ◌+◌, None, ◌<◌, ◌≤◌, ◌^◌, ◌&&◌, ◌||◌, not, nat_le, nat_lt, ◌==◌, map, option_map, drop, length, slice_index_or, []};
ghost use Rattle.std.specs.List.{list_any};
ghost use Rattle.memcached_text.specs.Words.{words_of, word_at, after_word, is_key};
ghost use Rattle.memcached_text.specs.Meta.{letter_of, is_among, has_letter, token_of, number_fault, flag_fault, fault_after, place_at, is_before, flag_at, token_at, number_at, exptime_at, weight_of, rank_of, graver, gravest, is_mode_outside, mode_fault, told_of, flags_fault, fault_for, first_of, unless, first_flag, many_fault, meta_refusal, set_of, unless_fault, request_after, meta_request_of, words_fault};
ghost use Rattle.memcached_text.specs.Refusals.{meta_block};
ghost use Rattle.memcached_text.specs.Asked.{shown_or_refused};

use crate::exptime::Exptime;
use crate::line_error::LineError;
use crate::line_refusal::{LineRefusal, RefusedBlock};
use crate::numbers::{data_len, expiry, low_number, number};
use crate::text_request::{MetaRequest, TextRequest};
use crate::verb::MetaCommand;
use crate::words::{after_word, is_key, words_in};

/// The most words of a meta command's line.
const MAX_META_WORDS: usize = 19;

/// The most bytes of an opaque token, with its letter.
const MAX_OPAQUE_LEN: usize = 32;

/// The rank of a fault after which memcached looks no further.
const FINAL_RANK: u32 = 4;

/// The first letter that memcached takes for one that stands twice.
const NOT_ASCII: u8 = 127;

/// The flags that are taken whatever follows their letter: base64, proxy hints, what to return, quiet, stale.
const PLAIN_FLAGS: &[u8] = b"bPLlhkstcfuvqI";

/// The letter of a flag, 0 if there is none.
pub(crate) fn letter(flag: &[u8]) -> u8
    ensures { result ≡ letter_of flag.now }
{
    if flag.is_empty() { 0 } else { flag[0] }
}

/// Whether a letter is one of these.
fn is_among(letter: u8, letters: &[u8]) -> bool
    ensures { result ≡ is_among letter letters.now }
{
    for other in letters {
        if *other == letter {
            return true;
        }
    }
    false
}

/// Whether one of the flags has a letter.
fn has_letter(flags: &[&[u8]], wanted: u8) -> bool
    ensures { result ≡ has_letter wanted (map (λ w. w.now) flags.now) }
{
    for flag in flags {
        if letter(flag) == wanted {
            return true;
        }
    }
    false
}

/// The token of a flag: what follows its letter.
fn token<'a>(flag: &'a [u8]) -> &'a [u8]
    ensures { result.now ≡ token_of flag.now }
{
    if flag.is_empty() { flag } else { &flag[1..] }
}

/// The place of the first flag with a letter, if there is one.
fn place_of(flags: &[&[u8]], wanted: u8) -> Option<usize>
    ensures { result ≡ place_at wanted (map (λ f. f.now) flags.now) }
{
    flags.iter().position(|flag| letter(flag) == wanted)
}

/// The flag with a letter, if there is one.
fn find_flag<'a>(flags: &[&'a [u8]], wanted: u8) -> Option<&'a [u8]>
    ensures { option_map (λ f. f.now) result ≡ flag_at wanted (map (λ f. f.now) flags.now) }
{
    for flag in flags {
        if letter(flag) == wanted {
            return Some(flag);
        }
    }
    None
}

impl<'a> MetaRequest<'a> {
    /// The token of the flag with a letter: what follows the letter. There is none if the line has no such flag.
    pub fn flag(&self, letter: u8) -> Option<&'a [u8]>
        ensures { option_map (λ t. t.now) result ≡ token_at letter self.now.flags.now }
    {
        let words = words_in(self.flags);
        match find_flag(&words, letter) {
            Some(flag) => Some(token(flag)),
            None => None,
        }
    }

    /// Whether the flag with one letter stands before that with another in the line; not if one of them is not there.
    pub fn is_before(&self, first: u8, second: u8) -> bool
        ensures { result ≡ is_before first second self.now.flags.now }
    {
        let words = words_in(self.flags);
        match (place_of(&words, first), place_of(&words, second)) {
            (Some(one), Some(other)) => one < other,
            (Some(_), None) => false,
            (None, _) => false,
        }
    }

    /// The number of 64 bits that the flag with a letter has: `C`, `D`, `F` and `J`.
    #[tactic(auto, unfolding(crate::specs::Meta::number_at))]
    pub fn number(&self, letter: u8) -> Option<u64>
        ensures { result ≡ number_at letter self.now.flags.now }
    {
        match self.flag(letter) {
            Some(token) => number(token),
            None => None,
        }
    }

    /// The expiry that the flag with a letter has: `N`, `R` and `T`.
    #[tactic(auto, unfolding(crate::specs::Meta::exptime_at))]
    pub fn exptime(&self, letter: u8) -> Option<Exptime>
        ensures { result ≡ exptime_at letter self.now.flags.now }
    {
        match self.flag(letter) {
            Some(token) => expiry(token),
            None => None,
        }
    }
}

/// A fault, if there is no such number.
fn unless<T: Drop>(found: Option<T>, fault: LineError) -> Option<LineError>
    ensures { result ≡ unless found fault }
{
    match found {
        Some(_) => None,
        None => Some(fault),
    }
}

/// The fault of a flag whose token is a number.
#[tactic(auto, unfolding(crate::specs::Meta::number_fault))]
fn number_fault(letter: u8, token: &[u8]) -> Option<LineError>
    ensures { result ≡ number_fault letter token.now }
{
    if is_among(letter, b"NTR") {
        unless(expiry(token), LineError::BadToken)
    } else if letter == b'F' {
        unless(low_number(token), LineError::BadFormat)
    } else if letter == b'C' {
        unless(number(token), LineError::BadToken)
    } else if letter == b'J' {
        unless(number(token), LineError::BadInitial)
    } else if letter == b'D' {
        unless(number(token), LineError::BadMetaDelta)
    } else if letter < NOT_ASCII {
        Some(LineError::BadFlag)
    } else {
        Some(LineError::DuplicateFlag)
    }
}

/// The fault of a flag by itself.
#[tactic(auto, unfolding(crate::specs::Meta::flag_fault))]
fn flag_fault(flag: &[u8]) -> Option<LineError>
    ensures { result ≡ flag_fault flag.now }
{
    let letter = letter(flag);
    if is_among(letter, PLAIN_FLAGS) {
        None
    } else if letter == b'O' {
        if flag.len() > MAX_OPAQUE_LEN {
            Some(LineError::OpaqueTooLong)
        } else {
            None
        }
    } else if letter == b'M' {
        if flag.len() == 2 {
            None
        } else {
            Some(LineError::BadModeToken)
        }
    } else {
        number_fault(letter, token(flag))
    }
}

/// The fault of a flag after these.
#[tactic(auto, unfolding(crate::specs::Meta::fault_after))]
fn fault_after(before: &[&[u8]], flag: &[u8]) -> Option<LineError>
    ensures { result ≡ fault_after (map (λ w. w.now) before.now) flag.now }
{
    if has_letter(before, letter(flag)) {
        Some(LineError::DuplicateFlag)
    } else {
        flag_fault(flag)
    }
}

/// How a fault ranks among those of other flags.
fn weight(fault: LineError) -> u32
    ensures value { result ≡ weight_of fault }
    ensures range { result ≤ 3 }
{
    match fault {
        LineError::OpaqueTooLong => 0,
        LineError::BadFormat => 1,
        LineError::DuplicateFlag => 3,
        LineError::BadFlag => 3,
        _ => 2,
    }
}

/// The same of a fault that may be none.
fn rank(fault: Option<LineError>) -> u32
    ensures { result ≡ rank_of fault }
{
    match fault {
        None => 0,
        Some(fault) => 1 + weight(fault),
    }
}

/// Of two faults, the one that is told. After one of the highest rank memcached looks no further.
fn graver(told: Option<LineError>, fault: Option<LineError>) -> Option<LineError>
    ensures { result ≡ graver told fault }
{
    if FINAL_RANK <= rank(told) || rank(fault) < rank(told) {
        told
    } else {
        fault
    }
}

/// The fault of flags that is told.
fn gravest_fault(flags: &[&[u8]]) -> Option<LineError>
    ensures { result ≡ gravest [] None (map (λ w. w.now) flags.now) }
{
    let mut told = None;
    for at in 0..flags.len() {
        told = graver(told, fault_after(&flags[..at], flags[at]));
    }
    told
}

/// Whether a flag is `M` with a mode that is none of these.
fn is_mode_outside(modes: &[u8], flag: &[u8]) -> bool
    ensures { result ≡ is_mode_outside modes.now flag.now }
{
    letter(flag) == b'M' && !is_among(letter(token(flag)), modes)
}

/// Whether a flag names a mode that is none of these.
fn has_mode_outside(modes: &[u8], flags: &[&[u8]]) -> bool
    ensures { result ≡ list_any (is_mode_outside modes.now) (map (λ w. w.now) flags.now) }
{
    for flag in flags {
        if is_mode_outside(modes, flag) {
            return true;
        }
    }
    false
}

/// The fault of the mode that flags name.
#[tactic(auto, unfolding(crate::specs::Meta::mode_fault))]
fn mode_fault(command: MetaCommand, flags: &[&[u8]]) -> Option<LineError>
    ensures { result ≡ mode_fault command (map (λ w. w.now) flags.now) }
{
    match command {
        MetaCommand::Set => {
            if has_mode_outside(b"SREAP", flags) {
                Some(LineError::BadSetMode)
            } else {
                None
            }
        }
        MetaCommand::Arithmetic => {
            if has_mode_outside(b"I+D-", flags) {
                Some(LineError::BadArithmeticMode)
            } else {
                None
            }
        }
        MetaCommand::Get => None,
        MetaCommand::Delete => None,
        MetaCommand::Debug => None,
    }
}

/// A fault of flags, as the command says it.
fn fault_for(command: MetaCommand, fault: LineError) -> LineError
    ensures { result ≡ fault_for command fault }
{
    match command {
        MetaCommand::Get => fault,
        MetaCommand::Set => fault,
        MetaCommand::Delete => LineError::BadOrDuplicateFlag,
        MetaCommand::Arithmetic => LineError::BadOrDuplicateFlag,
        MetaCommand::Debug => LineError::BadFormat,
    }
}

/// The fault that is told, of that of the flags and that of their mode.
fn told_fault(
    command: MetaCommand,
    fault: Option<LineError>,
    mode: Option<LineError>,
) -> Option<LineError>
    ensures { result ≡ told_of command fault mode }
{
    match fault {
        None => mode,
        Some(fault) if weight(fault) == 0 => first_of(mode, Some(fault)),
        Some(fault) => Some(fault_for(command, fault)),
    }
}

/// The first of two faults.
fn first_of(one: Option<LineError>, other: Option<LineError>) -> Option<LineError>
    ensures { result ≡ first_of one other }
{
    match one {
        Some(fault) => Some(fault),
        None => other,
    }
}

/// The fault of a command's flags.
#[tactic(auto, unfolding(crate::specs::Meta::flags_fault))]
fn flags_fault(command: MetaCommand, flags: &[&[u8]]) -> Option<LineError>
    ensures { result ≡ flags_fault command (map (λ w. w.now) flags.now) }
{
    told_fault(command, gravest_fault(flags), mode_fault(command, flags))
}

/// How many words stand before a command's flags.
fn first_flag(command: MetaCommand) -> usize
    ensures value { result ≡ first_flag command }
    ensures range { (2 ≤ result) × (result ≤ 3) }
{
    match command {
        MetaCommand::Set => 3,
        MetaCommand::Get => 2,
        MetaCommand::Delete => 2,
        MetaCommand::Arithmetic => 2,
        MetaCommand::Debug => 2,
    }
}

/// The data block that follows a meta command's line: the third word of `ms` is its length.
fn meta_block(command: MetaCommand, words: &[&[u8]]) -> RefusedBlock
    ensures { result ≡ meta_block command (map (λ w. w.now) words.now) }
{
    match command {
        MetaCommand::Set if words.len() > 2 => RefusedBlock::by(data_len(words[2])),
        MetaCommand::Set => RefusedBlock::Unreadable,
        MetaCommand::Get => RefusedBlock::Absent,
        MetaCommand::Delete => RefusedBlock::Absent,
        MetaCommand::Arithmetic => RefusedBlock::Absent,
        MetaCommand::Debug => RefusedBlock::Absent,
    }
}

/// The refusal of a meta command's line.
fn refusal(command: MetaCommand, words: &[&[u8]], fault: LineError) -> LineRefusal
    ensures { result ≡ meta_refusal command (map (λ w. w.now) words.now) fault }
{
    LineRefusal {
        fault,
        noreply: false,
        block: meta_block(command, words),
    }
}

/// `COMMAND KEY FLAG..`, by the text of the flags; for `ms` by the length of its data block too, for the others by 0.
fn flagged_request<'a>(
    command: MetaCommand,
    len: u32,
    words: &[&'a [u8]],
    flags: &'a [u8],
) -> Result<TextRequest<'a>, LineRefusal>
    requires { 2 ≤ length words.now }
    ensures { shown_or_refused result ≡ unless_fault (flags_fault command (words_of flags.now)) (map (λ w. w.now) words.now)
        (record { command = command; key = word_at (map (λ w. w.now) words.now) 1; length = len; flags = flags.now }) }
{
    match flags_fault(command, &words_in(flags)) {
        None => Ok(TextRequest::Meta(MetaRequest {
            command,
            key: words[1],
            length: len,
            flags,
        })),
        Some(fault) => Err(refusal(command, words, fault)),
    }
}

/// `ms KEY LENGTH FLAG..`, by the text of the flags.
#[tactic(auto, unfolding(crate::specs::Meta::set_of))]
fn sized_request<'a>(words: &[&'a [u8]], flags: &'a [u8]) -> Result<TextRequest<'a>, LineRefusal>
    requires { 3 ≤ length words.now }
    ensures { shown_or_refused result ≡ set_of (map (λ w. w.now) words.now) flags.now }
{
    match data_len(words[2]) {
        Some(length) => flagged_request(MetaCommand::Set, length, words, flags),
        None => Err(refusal(MetaCommand::Set, words, LineError::BadFormat)),
    }
}

/// The fault of a line with too many words, as the command says it.
fn many_fault(command: MetaCommand) -> LineError
    ensures { result ≡ many_fault command }
{
    match command {
        MetaCommand::Get => LineError::TooManyFlags,
        MetaCommand::Set => LineError::FlagsTooLong,
        MetaCommand::Delete => LineError::FlagsTooLong,
        MetaCommand::Arithmetic => LineError::FlagsTooLong,
        MetaCommand::Debug => LineError::FlagsTooLong,
    }
}

/// The request of a meta command's line, with the line's words.
pub(crate) fn meta_request<'a>(
    command: MetaCommand,
    words: &[&'a [u8]],
    line: &'a [u8],
) -> Result<TextRequest<'a>, LineRefusal>
    ensures { shown_or_refused result ≡ meta_request_of command (map (λ w. w.now) words.now) line.now }
{
    match words_fault(command, words) {
        None => request_after(command, words, after_word(after_word(line))),
        Some(fault) => Err(refusal(command, words, fault)),
    }
}

/// The fault of a meta command's words, their flags aside.
fn words_fault(command: MetaCommand, words: &[&[u8]]) -> Option<LineError>
    ensures exact { result ≡ words_fault command (map (λ w. w.now) words.now) }
    ensures enough { result ≡ None → first_flag command ≤ length words.now }
{
    if words.len() < 2 {
        Some(LineError::Unknown)
    } else if !is_key(words[1]) || words.len() < first_flag(command) {
        Some(LineError::BadFormat)
    } else if words.len() > MAX_META_WORDS {
        Some(many_fault(command))
    } else {
        None
    }
}

/// The request of a meta command, by what is after its key.
fn request_after<'a>(
    command: MetaCommand,
    words: &[&'a [u8]],
    rest: &'a [u8],
) -> Result<TextRequest<'a>, LineRefusal>
    requires { first_flag command ≤ length words.now }
    ensures { shown_or_refused result ≡ request_after command (map (λ w. w.now) words.now) rest.now }
{
    match command {
        MetaCommand::Set => sized_request(words, after_word(rest)),
        _ => flagged_request(command, 0, words, rest),
    }
}
