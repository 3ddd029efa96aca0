// Lines and words in a picture.
ghost use Rattle.std.specs.Prelude.{◌≡◌, IfOk, string_bytes};
ghost use Rattle.history_picture.specs.Axes.{turned_text};
ghost use Rattle.history_picture.specs.Layout.{down_text, line_text, place_text, words_text};

use std::alloc::{AllocError, Global};

/// Where an element lies, and how large it is.
#[tactic(auto, unfolding(crate::specs::Layout::place_text))]
pub(crate) fn place(
    alloc: Global,
    left: u128,
    top: u128,
    width: u128,
    height: u128,
) -> Result<String, AllocError>
    ensures { IfOk result (λ text. string_bytes text ≡ place_text left top width height) }
{
    format!(in alloc; "x=\"{left}\" y=\"{top}\" width=\"{width}\" height=\"{height}\"")
}

/// A line across.
#[tactic(auto, unfolding(crate::specs::Layout::line_text))]
pub(crate) fn line(alloc: Global, left: u128, top: u128, right: u128) -> Result<String, AllocError>
    ensures { IfOk result (λ text. string_bytes text ≡ line_text left top right) }
{
    format!(in alloc; "<path d=\"M {left} {top} H {right}\" stroke=\"#e4e4e4\"/>\n")
}

/// A line downwards.
#[tactic(auto, unfolding(crate::specs::Layout::down_text))]
pub(crate) fn down(
    alloc: Global,
    x: u128,
    top: u128,
    bottom: u128,
    colour: &str,
) -> Result<String, AllocError>
    ensures { IfOk result (λ text. string_bytes text ≡ down_text x top bottom colour.now) }
{
    format!(in alloc; "<path d=\"M {x} {top} V {bottom}\" stroke=\"{colour}\"/>\n")
}

/// Words on a line.
#[tactic(auto, unfolding(crate::specs::Layout::words_text))]
pub(crate) fn words_at(
    alloc: Global,
    left: u128,
    base: u128,
    words: &str,
) -> Result<String, AllocError>
    ensures { IfOk result (λ text. string_bytes text ≡ words_text left base words.now) }
{
    format!(in alloc; "<text x=\"{left}\" y=\"{base}\">{words}</text>\n")
}

/// A number, written downwards.
#[tactic(auto, unfolding(crate::specs::Axes::turned_text))]
pub(crate) fn turned(alloc: Global, x: u128, top: u128, number: u64) -> Result<String, AllocError>
    ensures { IfOk result (λ text. string_bytes text ≡ turned_text x top number) }
{
    format!(in alloc; "<text transform=\"translate({x} {top}) rotate(90)\">{number}</text>\n")
}
