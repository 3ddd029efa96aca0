// The texts of figures.
ghost use Rattle.std.specs.Prelude.{◌≡◌, ◌++◌, IfOk, OnOk, string_bytes};
ghost use Rattle.std.specs.List.{flat_map};
ghost use Rattle.std.specs.Fmt.{decimal};
ghost use Rattle.serde_json.specs.Data.{string};
ghost use Rattle.serde_json.specs.Written.{compact_text};
ghost use Rattle.figures.specs.Figures.{figure_of, json_text, parted, plain_text, thousandths_text};

use crate::figure::Figure;
use serde_json::Value;
use std::alloc::{AllocError, Global};

/// Appends a figure as it stands on a line.
pub(crate) fn push_plain(
    alloc: Global,
    text: &mut String,
    figure: Figure<'_>,
) -> Result<(), AllocError>
    ensures { OnOk result (string_bytes text.new ≡ string_bytes text.old ++ plain_text (figure_of figure.entry)) }
{
    match figure {
        Figure::Count(number) => push_number(alloc, text, number),
        Figure::Thousandths(number) => push_thousandths(alloc, text, number),
        Figure::Word(word) => text.push_str(word),
        Figure::Numbers(numbers) => push_parted(alloc, text, " ", numbers),
    }
}

/// Appends a figure as it stands in a JSON object.
pub(crate) fn push_json(
    alloc: Global,
    text: &mut String,
    figure: Figure<'_>,
) -> Result<(), AllocError>
    ensures { OnOk result (string_bytes text.new ≡ string_bytes text.old ++ json_text (figure_of figure.entry)) }
{
    match figure {
        Figure::Count(number) => push_number(alloc, text, number),
        Figure::Thousandths(number) => push_thousandths(alloc, text, number),
        Figure::Word(word) => push_string(alloc, text, word),
        Figure::Numbers(numbers) => {
            text.push_str("[")?;
            push_parted(alloc, text, ",", numbers)?;
            text.push_str("]")
        }
    }
}

/// Appends a number in decimal.
fn push_number(alloc: Global, text: &mut String, number: u64) -> Result<(), AllocError>
    ensures { OnOk result (string_bytes text.new ≡ string_bytes text.old ++ decimal number) }
{
    let digits = number.to_string(alloc)?;
    text.push_str(digits.as_str())
}

/// Appends a number of thousandths, with three decimals.
fn push_thousandths(alloc: Global, text: &mut String, number: u64) -> Result<(), AllocError>
    ensures { OnOk result (string_bytes text.new ≡ string_bytes text.old ++ thousandths_text number) }
{
    let whole = number / 1000;
    let tenths = number % 1000 / 100;
    let hundredths = number % 1000 / 10 % 10;
    let thousandths = number % 1000 % 10;
    let digits = format!(in alloc; "{whole}.{tenths}{hundredths}{thousandths}")?;
    text.push_str(digits.as_str())
}

/// Appends a text as a JSON string.
fn push_string(alloc: Global, text: &mut String, word: &str) -> Result<(), AllocError>
    ensures { OnOk result (string_bytes text.new
        ≡ string_bytes text.old ++ compact_text (string word.now)) }
{
    let quoted = quoted(alloc, word)?;
    text.push_str(quoted.as_str())
}

/// A text as a JSON string.
fn quoted(alloc: Global, word: &str) -> Result<String, AllocError>
    ensures { IfOk result (λ quoted. string_bytes quoted ≡ compact_text (string word.now)) }
{
    let value = Value::String(String::from_str(alloc, word)?);
    value.to_string(alloc)
}

/// Appends numbers, with this mark between them.
fn push_parted(
    alloc: Global,
    text: &mut String,
    mark: &str,
    numbers: &[u64],
) -> Result<(), AllocError>
    ensures { OnOk result (string_bytes text.new ≡ string_bytes text.old ++ parted mark.now numbers.now) }
{
    let Some((first, rest)) = numbers.split_first() else {
        return Ok(());
    };
    push_number(alloc, text, *first)?;
    push_rest(alloc, text, mark, rest)
}

/// Appends numbers, each after this mark.
fn push_rest(
    alloc: Global,
    text: &mut String,
    mark: &str,
    numbers: &[u64],
) -> Result<(), AllocError>
    ensures { OnOk result (string_bytes text.new
        ≡ string_bytes text.old ++ flat_map (λ n. mark.now ++ decimal n) numbers.now) }
{
    for number in numbers {
        text.push_str(mark)?;
        push_number(alloc, text, *number)?;
    }
    Ok(())
}
