//! Finds the reason why a line is not one of a state's text.

use crate::fault::{StateField, StateReason};
use crate::fields;
use napt_config::Address;
use std::alloc::Global;

/// The number of characters of a wrong word that are printed.
const SHOWN: usize = 40;

/// Returns the fields that follow the first word of a line of this kind.
fn words_after(kind: &str) -> &'static [StateField] {
    use StateField::{Address, Count, End, BoundedCount, Mark, Number, Protocol, Row};
    match kind {
        "clock" => &[Count],
        "log" => &[BoundedCount, Count, Count, Count],
        "binding" | "redirect" => &[
            Protocol,
            Address,
            Number,
            Address,
            Number,
            Count,
            Count,
            Count,
            BoundedCount,
            BoundedCount,
            Count,
            Count,
        ],
        "held" => &[Protocol, Address, Number, Address, Number, Count],
        "flow" => &[Address, Number, Count, Mark, Mark, Mark, Mark, Mark],
        "entry" => &[
            Count,
            Row,
            Protocol,
            Address,
            Number,
            Address,
            Number,
            Count,
            End,
            BoundedCount,
            BoundedCount,
            Count,
            Count,
        ],
        "end" => &[Count, Count, Count],
        _ => &[],
    }
}

/// Returns whether a line of this kind may have only `words` words after the first: a binding
/// without an account, counts without that of entries, or a log as earlier versions wrote it.
fn is_shorter(kind: &str, words: usize) -> bool {
    match kind {
        "binding" | "redirect" => words == 6,
        "end" | "log" => words == 2,
        _ => false,
    }
}

/// Returns whether a number is written without a sign or a leading zero.
fn is_plain(number: &str) -> bool {
    number == "0" || !number.starts_with('0') && !number.starts_with('+')
}

/// Returns whether the word at an index is valid for this field.
fn is_right(kind: StateField, line: &str, place: usize) -> bool {
    let word = fields::word(line, place);
    match kind {
        StateField::Kind => !words_after(word).is_empty(),
        StateField::Protocol => fields::protocol(line, place).is_some(),
        StateField::Address => word.parse::<Address>().is_ok() && word.split('.').all(is_plain),
        StateField::Number => word.parse::<u16>().is_ok() && is_plain(word),
        StateField::Count => word.parse::<u64>().is_ok() && is_plain(word),
        StateField::BoundedCount => fields::count(line, place).is_some() && is_plain(word),
        StateField::End => word == "never" || word.parse::<u128>().is_ok() && is_plain(word),
        StateField::Row => word == "binding" || word == "redirect",
        StateField::Mark => word == "0" || word == "1",
    }
}

/// Returns the reason that refuses a word as this field.
pub(crate) fn wrong_word(alloc: Global, kind: StateField, word: &str) -> StateReason {
    let mut shown = String::new(alloc);
    for character in word.chars().take(SHOWN) {
        if !character.is_control() && shown.push(character).is_err() {
            return StateReason::Memory;
        }
    }
    StateReason::Word(kind, shown)
}

/// Returns the reason why a line, without its line feed, is not one of a state's text.
pub(crate) fn reason_of(alloc: Global, line: &str) -> StateReason {
    let first = fields::word(line, 0);
    let behind = words_after(first);
    if behind.is_empty() {
        return wrong_word(alloc, StateField::Kind, first);
    }
    let words = line.split(' ').count() - 1;
    if words == behind.len() || is_shorter(first, words) {
        for (before, kind) in behind.iter().take(words).enumerate() {
            if !is_right(*kind, line, before + 1) {
                return wrong_word(alloc, *kind, fields::word(line, before + 1));
            }
        }
    }
    StateReason::WordCount
}
