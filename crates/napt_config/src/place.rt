//! The place at which the text of a configuration breaks a rule.

use std::alloc::Global;
use std::fmt;
use toml::de::Error;

/// The place at which `Config::read_at` stopped: the key that it read last, with the line of the
/// text, as far as both are known. It is printed as `line 7: redirect[2].external: `.
#[derive(Debug, Drop)]
pub struct ConfigPlace {
    /// The line of the text, from 1.
    line: Option<usize>,
    /// The key at the top.
    key: Option<&'static str>,
    /// The index, from 0, in the list at the key.
    entry: Option<usize>,
    /// The key in that entry, or in the table at the key.
    field: Option<&'static str>,
    /// An unknown key as the text has it, or what the TOML parser says of the line.
    own: Option<String>,
}

impl ConfigPlace {
    /// Returns the place of a reader that has read nothing, which prints nothing.
    pub fn new() -> ConfigPlace {
        ConfigPlace {
            line: None,
            key: None,
            entry: None,
            field: None,
            own: None,
        }
    }

    /// Goes on to a key at the top.
    pub(crate) fn at_key(&mut self, key: &'static str) {
        self.key = Some(key);
        self.entry = None;
        self.field = None;
    }

    /// Goes on to the next entry of the list at the key.
    pub(crate) fn at_next_entry(&mut self) {
        self.entry = match self.entry {
            Some(entry) => Some(entry.saturating_add(1)),
            None => Some(0),
        };
        self.field = None;
    }

    /// Goes on to a key of the entry, or of the table at the key.
    pub(crate) fn at_field(&mut self, field: &'static str) {
        self.field = Some(field);
    }

    /// Goes back from the fields of an entry to the whole entry.
    pub(crate) fn at_entry(&mut self) {
        self.field = None;
    }

    /// Stays at an unknown key. Its name is left out if memory is refused.
    pub(crate) fn at_unknown(&mut self, alloc: Global, name: &str) {
        self.own = String::from_str(alloc, name).ok();
    }

    /// Stays where a text is not TOML. The parser's message is left out if memory is refused.
    pub(crate) fn at_syntax(&mut self, alloc: Global, text: &str, error: &Error) {
        self.own = String::from_str(alloc, error.message()).ok();
        if let Some(span) = error.span() {
            let before = text.as_bytes().get(..span.start).unwrap_or(text.as_bytes());
            let ends = before.iter().filter(|byte| **byte == b'\n').count();
            self.line = Some(ends.saturating_add(1));
        }
    }

    /// Finds the line of the key in the text.
    pub(crate) fn find_line(&mut self, text: &[u8]) {
        if let Ok(text) = str::from_utf8(text) {
            self.line = self.line_in(text);
        }
    }

    /// Returns the line of the field, of the entry, or of the key: the first of them that has one.
    fn line_in(&self, text: &str) -> Option<usize> {
        let own = self.own.as_ref().map(|own| own.as_str());
        let Some(key) = self.key else {
            return line_of_key(text, own?);
        };
        let Some(head) = head_line(text, key, self.entry.unwrap_or(0)) else {
            return line_of_key(text, key);
        };
        let within = match self.field.or(own) {
            Some(name) => set_line(text, head, name),
            None => None,
        };
        Some(within.unwrap_or(head))
    }
}

/// Returns the line, from 1, that sets a key at the top of a text, or that begins a table there.
fn line_of_key(text: &str, key: &str) -> Option<usize> {
    match set_line(text, 0, key) {
        Some(line) => Some(line),
        None => head_line(text, key, 0),
    }
}

/// Returns the first line that sets a key, after the skipped lines and before the next table.
fn set_line(text: &str, skipped: usize, key: &str) -> Option<usize> {
    let mut lines = text
        .lines()
        .skip(skipped)
        .take_while(|line| !line.trim().starts_with('['));
    let index = lines.position(|line| is_set(line, key))?;
    Some(skipped.saturating_add(index).saturating_add(1))
}

/// Returns the line, from 1, of the head with that index, from 0, of the tables at a key.
fn head_line(text: &str, key: &str, index: usize) -> Option<usize> {
    let mut heads = text
        .lines()
        .enumerate()
        .filter(|(_, line)| is_head(*line, key));
    let (line, _) = heads.nth(index)?;
    Some(line.saturating_add(1))
}

/// Returns whether a line gives a key a value.
fn is_set(line: &str, key: &str) -> bool {
    match line.split_once('=') {
        Some((before, _)) => before.trim().trim_matches('"') == key,
        None => false,
    }
}

/// Returns whether a line is the head of a table at a key, as `[timers]` or `[[redirect]]`.
fn is_head(line: &str, key: &str) -> bool {
    let line = match line.split_once('#') {
        Some((before, _)) => before.trim(),
        None => line.trim(),
    };
    line.starts_with('[') && line.trim_matches(|letter: char| letter == '[' || letter == ']') == key
}

impl fmt::Display for ConfigPlace {
    fn fmt<W: fmt::Write>(&self, f: &mut fmt::Formatter<W>) -> fmt::Result {
        if let Some(line) = self.line {
            write!(f, "line {line}: ")?;
        }
        if let Some(key) = self.key {
            f.write_str(key)?;
            if let Some(entry) = self.entry {
                write!(f, "[{entry}]")?;
            }
            if self.field.is_some() || self.own.is_some() {
                f.write_str(".")?;
            }
        }
        if let Some(field) = self.field {
            f.write_str(field)?;
        }
        if let Some(own) = &self.own {
            f.write_str(own)?;
        }
        if self.key.is_some() || self.own.is_some() {
            f.write_str(": ")?;
        }
        Ok(())
    }
}
