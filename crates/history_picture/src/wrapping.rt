// A text broken into lines between its words.
ghost use Rattle.std.specs.Prelude.{◌≡◌, IfOk, IsTrue, OnOk, fold};
ghost use Rattle.history_picture.specs.Wrapping.{broken_of, feeds, has_room, on_line, placed, unbroken, with_sign, wrapped};

use std::alloc::{AllocError, Global};

/// The most signs of a line that has several words.
const WIDTH: usize = 96;

/// A text on its way into lines.
#[derive(Drop)]
pub(crate) struct Wrapping {
    /// What stands on lines, with a line feed before each but the first.
    text: Vec<u8>,
    /// How many signs the last line has.
    used: usize,
    /// The word that is not placed.
    word: Vec<u8>,
}

/// A text with a line feed before each word that has no room on the line before.
#[tactic(auto, unfolding(crate::specs::Wrapping::wrapped))]
pub(crate) fn wrapped(alloc: Global, text: &str) -> Result<Vec<u8>, AllocError>
    ensures { IfOk result (λ lines. lines.items ≡ wrapped text.now) }
{
    let mut wrapping = Wrapping::of(alloc, text)?;
    wrapping.place()?;
    Ok(wrapping.text)
}

impl Wrapping {
    /// A text but for its last word.
    fn of(alloc: Global, text: &str) -> Result<Wrapping, AllocError>
        ensures { IfOk result (λ wrapping. broken_of wrapping ≡ fold with_sign unbroken text.now) }
    {
        let mut wrapping = Wrapping {
            text: Vec::new(alloc),
            used: 0,
            word: Vec::new(alloc),
        };
        for sign in text.as_bytes() {
            wrapping.push(*sign)?;
        }
        Ok(wrapping)
    }

    /// Takes one sign more. A space ends a word and belongs to it.
    fn push(&mut self, sign: u8) -> Result<(), AllocError>
        ensures { OnOk result (broken_of self.new ≡ with_sign (broken_of self.old) sign) }
    {
        self.word.push(sign)?;
        if sign == b' ' {
            return self.place();
        }
        Ok(())
    }

    /// Puts the word on the line if it has room there, otherwise on the next one.
    fn place(&mut self) -> Result<(), AllocError>
        ensures { OnOk result (broken_of self.new ≡ placed (broken_of self.old)) }
    {
        if self.has_room() {
            return self.put_on_line();
        }
        self.text.push(b'\n')?;
        self.used = 0;
        self.put_on_line()
    }

    /// Puts the word on the line.
    fn put_on_line(&mut self) -> Result<(), AllocError>
        requires { IsTrue (has_room self.old.used self.old.word.items) }
        ensures { OnOk result (broken_of self.new ≡ on_line (broken_of self.old)) }
    {
        self.text.extend_from_slice(self.word.as_slice())?;
        self.used += self.word.len();
        self.word.clear();
        Ok(())
    }

    /// Whether the word has room on the line.
    fn has_room(&self) -> bool
        ensures { result ≡ has_room self.now.used self.now.word.items }
    {
        self.used == 0 || self.word.len() <= WIDTH.saturating_sub(self.used)
    }
}

/// How many lines follow the first one.
pub(crate) fn feeds(lines: &[u8]) -> usize
    ensures { result ≡ feeds lines.now }
{
    lines.iter().filter(|sign| **sign == b'\n').count()
}
