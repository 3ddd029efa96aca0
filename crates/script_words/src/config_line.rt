// The first line of a script.
ghost use Rattle.std.specs.Prelude.{◌≡◌, ◌<◌, length, map, slice_index_or, []};
ghost use Rattle.script_words.specs.Configs.{number_at, config_of_words, config_of};

use crate::command::is_named;
use crate::words::{number, words_in};
use record_pages::Config;

/// The number that one of the words writes.
#[tactic(auto, unfolding(crate::specs::Configs::number_at))]
fn number_at(words: &[&[u8]], index: usize) -> Option<u32>
    requires { index < length words.now }
    ensures { result ≡ number_at (map (λ w. w.now) words.now) index }
{
    number(words[index])
}

/// The configuration that words spell.
fn config_of_words(words: &[&[u8]]) -> Option<Config>
    ensures { result ≡ config_of_words (map (λ w. w.now) words.now) }
{
    if !is_named(words, 9, b"config") {
        return None;
    }
    Some(Config {
        lanes: number_at(words, 1)?,
        sets: number_at(words, 2)?,
        memory: number_at(words, 3)?,
        segments: number_at(words, 4)?,
        segment_pages: number_at(words, 5)?,
        entries: number_at(words, 6)?,
        threshold: number_at(words, 7)?,
        admit: number_at(words, 8)?,
    })
}

/// The configuration that a line spells. It takes no memory.
pub fn parse_config(line: &[u8]) -> Option<Config>
    ensures { result ≡ config_of line.now }
{
    match words_in(line) {
        Some(words) => config_of_words(&words),
        None => None,
    }
}
