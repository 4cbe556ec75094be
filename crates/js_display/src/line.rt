//! A line as it is built.
ghost use Rattle.std.specs.Prelude.{◌≡◌, ◌==◌, ◌<◌, ◌++◌, [], length, OnOk, codes};
ghost use Rattle.std.specs.Fmt.{signed_decimal};
ghost use Rattle.std.specs.Prelude.{decimal};
ghost use Rattle.wl_text.specs.Text.{quoted, quoted_unit};
ghost use Rattle.std.specs.Char.{digit_char};
ghost use Rattle.js_semantics.specs.Display.{shown_key};
ghost use Rattle.js_display.specs.Line.{more, Spends};

use js_token::is_name;
use std::alloc::{AllocError, Global};
use std::marker::Model;
use wl_text::Units;

/// The units of a line, at most so many, and how many more elements and properties may be shown in its argument. What
/// doesn't fit any more is left out.
#[derive(Drop)]
pub(crate) struct Line {
    units: Vec<u16>,
    limit: usize,
    left: usize,
}

impl Model for Line {
    ghost use Rattle.std.specs.Prelude.{◌≤◌, length};
    ghost use Rattle.js_display.specs.Line.{Built};

    ghost Value = { Built };

    ghost view = { λ line. record { text = line.units.items; limit = line.limit; left = line.left } };

    ghost invariant = { λ line. length line.units.items ≤ line.limit };
}

impl Line {
    /// An empty line, of which nothing may be shown so far. It takes no memory.
    pub(crate) fn new(alloc: Global, limit: usize) -> Line
        ensures { result ≡ record { text = []; limit = limit; left = 0 } }
    {
        Line {
            units: Vec::new(alloc),
            limit,
            left: 0,
        }
    }

    /// The units that stand.
    pub(crate) fn text(&self) -> &[u16]
        ensures { result.now ≡ self.now.text }
    {
        self.units.as_slice()
    }

    /// Whether no unit fits any more.
    pub(crate) fn is_full(&self) -> bool
        ensures { result ≡ (length self.now.text == self.now.limit) }
    {
        self.units.len() == self.limit
    }

    /// Lets so many elements and properties be shown.
    pub(crate) fn allow(&mut self, left: usize)
        ensures { self.new ≡ record self.old { left = left } }
    {
        self.left = left;
    }

    /// Counts an element or a property, where one more may be shown.
    pub(crate) fn spend(&mut self) -> bool
        ensures { Spends self.old result self.new }
    {
        if self.left == 0 {
            return false;
        }
        self.left -= 1;
        true
    }

    /// Puts units at the end. The cost is linear in those that fit.
    pub(crate) fn put(&mut self, units: &[u16]) -> Result<(), AllocError>
        ensures { OnOk result (self.new ≡ more units.now self.old) }
    {
        let count = units.len().min(self.limit - self.units.len());
        self.units.extend_from_slice(&units[..count])?;
        Ok(())
    }

    /// Puts an ASCII word at the end.
    pub(crate) fn put_word(&mut self, word: &str) -> Result<(), AllocError>
        ensures { OnOk result (self.new ≡ more word.now self.old) }
    {
        'letters: for letter in word.as_bytes() {
            self.put(&[u16::from(*letter)])?;
        }
        let _ = &self.units;
        Ok(())
    }

    /// Puts a number at the end, in decimal.
    pub(crate) fn put_number(&mut self, alloc: Global, number: i64) -> Result<(), AllocError>
        ensures { OnOk result (self.new ≡ more (signed_decimal number) self.old) }
    {
        let digits = number.to_string(alloc)?;
        self.put_word(digits.as_str())
    }

    /// Puts a count between a word and a parenthesis.
    pub(crate) fn put_sized(
        &mut self,
        alloc: Global,
        word: &str,
        count: usize,
    ) -> Result<(), AllocError>
        ensures { OnOk result (self.new ≡ more (word.now ++ (decimal count ++ codes ")")) self.old) }
    {
        let digits = count.to_string(alloc)?;
        self.put_word(word)?;
        self.put_word(digits.as_str())?;
        self.put_word(")")
    }

    // Puts a unit at the end, as it stands in a quoted text.
    fn put_quoted_unit(&mut self, unit: u16) -> Result<(), AllocError>
        ensures { OnOk result (self.new ≡ more (quoted_unit unit) self.old) }
    {
        if unit == 34 || unit == 92 {
            return self.put(&[92, unit]);
        }
        if unit < 32 || 126 < unit {
            return self.put(&[
                92,
                117,
                hex_digit(unit / 4096 % 16),
                hex_digit(unit / 256 % 16),
                hex_digit(unit / 16 % 16),
                hex_digit(unit % 16),
            ]);
        }
        self.put(&[unit])
    }

    /// Puts a text in double quotes at the end. The cost is linear in the units that fit.
    #[tactic(auto, unfolding(wl_text::specs::Text::quoted))]
    pub(crate) fn put_quoted(&mut self, text: &Units) -> Result<(), AllocError>
        ensures { OnOk result (self.new ≡ more (quoted text.now) self.old) }
    {
        self.put(&[34])?;
        'units: for unit in text.as_slice() {
            if self.is_full() {
                return Ok(());
            }
            self.put_quoted_unit(*unit)?;
        }
        self.put(&[34])
    }

    /// Puts a key at the end: bare where it is a name, and else in quotes.
    pub(crate) fn put_key(&mut self, key: &Units) -> Result<(), AllocError>
        ensures { OnOk result (self.new ≡ more (shown_key key.now) self.old) }
    {
        if is_name(key) {
            self.put(key.as_slice())
        } else {
            self.put_quoted(key)
        }
    }
}

// The digit of a number below sixteen.
fn hex_digit(value: u16) -> u16
    requires { value < 16 }
    ensures { result ≡ digit_char value }
{
    if value < 10 { 48 + value } else { 87 + value }
}
