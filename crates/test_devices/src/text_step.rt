// A step of a test's text.
use crate::made::{key, value};
use arrayvec::ArrayVec;
use itoa::Buffer;
use record_pages::{Config, Key, Value};
use std::alloc::Global;
use std::test::Fail;

/// The most bytes that a word spells, and that an answer has.
pub const MAX_TOLD: usize = 4096;

/// What a word spells.
pub type Spelled = ArrayVec<u8, MAX_TOLD>;

/// Whether a word is this one. A `match` on byte strings costs more to prove.
pub fn is(word: &[u8], name: &[u8]) -> bool {
    word == name
}

/// A step of a text: the words of a call, and after them those of its answer. Who makes the call takes its words, and tells the
/// answer; then the answer has to be what the words that are left spell.
#[derive(Drop)]
pub struct TextStep<'a> {
    left: &'a [u8],
    told: Spelled,
    is_bad: bool,
}

impl<'a> TextStep<'a> {
    /// A step of which no word was taken, and for which nothing was told.
    pub(crate) fn new(bytes: &'a [u8]) -> Self {
        TextStep {
            left: without_blanks(bytes),
            told: ArrayVec::new(),
            is_bad: false,
        }
    }

    // A step that is no call.
    pub(crate) fn refused() -> Self {
        let mut step = TextStep::new(&[]);
        step.refuse();
        step
    }

    /// Takes the next word, which is empty if there is none.
    pub fn word(&mut self) -> &'a [u8] {
        let (word, left) = split_word(self.left);
        self.left = without_blanks(left);
        word
    }

    /// Takes the next word, and gives what it spells.
    pub fn bytes(&mut self) -> Spelled {
        let mut bytes = ArrayVec::new();
        let word = self.word();
        self.is_bad |= word.is_empty() || !spell(word, &mut bytes);
        bytes
    }

    /// Takes a key. It fails if the next word spells none.
    pub fn key(&mut self, alloc: Global) -> Result<Key, Fail> {
        key(alloc, self.bytes().as_slice())
    }

    /// Takes a value. It fails if the next word spells none.
    pub fn value(&mut self, alloc: Global) -> Result<Value, Fail> {
        value(alloc, self.bytes().as_slice())
    }

    /// Takes the next word if it is a number.
    pub fn number_if_any(&mut self) -> Option<u64> {
        let (word, left) = split_word(self.left);
        let number = number_of(word)?;
        self.left = without_blanks(left);
        Some(number)
    }

    /// Takes the next word if it is a pair, `KEY=VALUE`, and gives the key and what the value spells.
    pub fn pair_if_any(&mut self) -> Option<(&'a [u8], Spelled)> {
        let (word, left) = split_word(self.left);
        let (key, spelling) = split_pair(word)?;
        self.left = without_blanks(left);
        let mut value = ArrayVec::new();
        self.is_bad |= !spell(spelling, &mut value);
        Some((key, value))
    }

    /// Takes a number. If the next word is none the step is bad.
    pub fn number(&mut self) -> u64 {
        match self.number_if_any() {
            Some(number) => number,
            None => {
                self.is_bad = true;
                0
            }
        }
    }

    /// Takes a number of 32 bits. If the next word is none the step is bad.
    pub fn small(&mut self) -> u32 {
        match u32::try_from(self.number()) {
            Ok(number) => number,
            Err(_) => {
                self.is_bad = true;
                0
            }
        }
    }

    /// Takes the numbers of 32 bits that stand next, up to 32 of them.
    pub fn numbers(&mut self) -> ArrayVec<u32, 32> {
        let mut numbers = ArrayVec::new();
        for _ in 0..32usize {
            let Some(number) = self.number_if_any() else {
                return numbers;
            };
            let Ok(small) = u32::try_from(number) else {
                self.is_bad = true;
                return numbers;
            };
            self.is_bad |= numbers.try_push(small).is_err();
        }
        numbers
    }

    /// Takes a configuration: the eight numbers that follow `config` in a script.
    pub fn config(&mut self) -> Config {
        Config {
            lanes: self.small(),
            sets: self.small(),
            memory: self.small(),
            segments: self.small(),
            segment_pages: self.small(),
            entries: self.small(),
            threshold: self.small(),
            admit: self.small(),
        }
    }

    /// Tells bytes of the answer, as its next word.
    pub fn tell(&mut self, bytes: &[u8]) {
        self.is_bad |= !append_word(bytes, &mut self.told);
    }

    /// Tells a number of the answer, as its next word.
    pub fn tell_number(&mut self, number: u64) {
        let mut buffer = Buffer::new();
        self.tell(buffer.format(number).as_bytes());
    }

    /// Tells a key and a value of the answer, as one word with a `=` between them.
    pub fn tell_pair(&mut self, key: &[u8], value: &[u8]) {
        self.tell(key);
        self.is_bad |= self.told.try_push(b'=').is_err();
        self.is_bad |= self.told.try_extend_from_slice(value).is_err();
    }

    /// There is no such call: whatever its words, the step is bad.
    pub fn refuse(&mut self) {
        self.is_bad = true;
    }
}

impl<'a> TextStep<'a> {
    // Whether it has a word.
    pub(crate) fn has_words(&self) -> bool {
        !self.left.is_empty()
    }

    // Whether what was told is what the words that are left spell.
    pub(crate) fn is_right(&mut self) -> bool {
        let mut wanted = ArrayVec::new();
        let fits = spell_words(self, &mut wanted);
        fits && !self.is_bad && self.told.as_slice() == wanted.as_slice()
    }

    // What was told, as a test's failure shows it.
    pub(crate) fn told(&self) -> &str {
        if self.is_bad {
            return " no call";
        }
        str::from_utf8(self.told.as_slice()).unwrap_or(" no text")
    }
}

// Spells the words that are left, and says whether there was room.
fn spell_words(step: &mut TextStep<'_>, wanted: &mut Spelled) -> bool {
    for _ in 0..step.left.len() {
        let word = step.word();
        if word.is_empty() {
            return true;
        }
        if wanted.try_push(b' ').is_err() || !spell_pair(word, wanted) {
            return false;
        }
    }
    true
}

// Appends a blank and these bytes, and says whether there was room.
fn append_word(bytes: &[u8], told: &mut Spelled) -> bool {
    told.try_push(b' ').is_ok() && told.try_extend_from_slice(bytes).is_ok()
}

// Appends what a word of an answer spells, and says whether there was room. Of a pair its value is spelled.
fn spell_pair(word: &[u8], wanted: &mut Spelled) -> bool {
    match split_pair(word) {
        Some((key, value)) => {
            wanted.try_extend_from_slice(key).is_ok()
                && wanted.try_push(b'=').is_ok()
                && spell(value, wanted)
        }
        None => spell(word, wanted),
    }
}

// The bytes before the first `=` and behind it, if there is one.
fn split_pair(word: &[u8]) -> Option<(&[u8], &[u8])> {
    let at = word.iter().position(|b| *b == b'=')?;
    Some((&word[..at], &word[at + 1..]))
}

// Appends what a word spells, and says whether there was room: `-` spells no byte, `v*200` spells 200 of the byte `v`, and any
// other word spells itself.
fn spell(word: &[u8], bytes: &mut Spelled) -> bool {
    match word {
        b"-" => true,
        [byte, b'*', digits @ ..] => repeat(*byte, number_of(digits), bytes),
        _ => bytes.try_extend_from_slice(word).is_ok(),
    }
}

// Appends a byte so often, and says whether there was room.
fn repeat(byte: u8, count: Option<u64>, bytes: &mut Spelled) -> bool {
    let Some(count) = count else {
        return false;
    };
    for _ in 0..count {
        if bytes.try_push(byte).is_err() {
            return false;
        }
    }
    true
}

// The number that decimal digits write.
fn number_of(word: &[u8]) -> Option<u64> {
    let mut number = 0u64;
    for digit in word {
        if !digit.is_ascii_digit() {
            return None;
        }
        number = number
            .checked_mul(10)?
            .checked_add(u64::from(*digit - b'0'))?;
    }
    if word.is_empty() { None } else { Some(number) }
}

// The bytes from the first that is no blank.
fn without_blanks(bytes: &[u8]) -> &[u8] {
    match bytes.iter().position(|b| *b != b' ') {
        Some(at) => &bytes[at..],
        None => &[],
    }
}

// The bytes before the first blank, and those from it on.
fn split_word(bytes: &[u8]) -> (&[u8], &[u8]) {
    match bytes.iter().position(|b| *b == b' ') {
        Some(at) => bytes.split_at(at),
        None => (bytes, &[]),
    }
}
