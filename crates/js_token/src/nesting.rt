//! What is open at a place of a script: braces, and parts of templates.
ghost use Rattle.std.specs.Prelude.{◌≡◌, ◌+◌, ◌-◌, ◌==◌, ◌≤◌, ◌<◌, ◌∷◌, false, reverse, IfSome, IfNone, OnOk, OnErr, IsTrue};
ghost use Rattle.js_token.specs.Nesting.{outside, outermost, open_template, nest, opened, closed, behind_piece};

use std::alloc::{AllocError, Global};

/// A `${` part of a template that starts at a place, with the number of braces that are open around the part.
#[derive(Drop, Clone, Copy)]
pub(crate) struct Part {
    pub(crate) start: u32,
    pub(crate) braces: u32,
}

/// What is open: how many braces, and the parts of templates, the outermost first.
#[derive(Drop)]
pub(crate) struct Nesting {
    pub(crate) braces: u32,
    pub(crate) parts: Vec<Part>,
}

impl Nesting {
    /// Nothing is open.
    pub(crate) fn new(alloc: Global) -> Nesting
        ensures { nest result ≡ outside }
    {
        Nesting {
            braces: 0,
            parts: Vec::new(alloc),
        }
    }

    /// The start of the outermost template that is open, or of this one where none is.
    pub(crate) fn outermost(&self, start: u32) -> u32
        ensures { result ≡ outermost start (reverse self.now.parts.items) }
    {
        match self.parts.split_first() {
            None => start,
            Some((part, _)) => part.start,
        }
    }

    /// The start of the outermost template that is open, if one is.
    pub(crate) fn open_template(&self) -> Option<u32>
        ensures { result ≡ open_template (nest self.now).parts }
    {
        match self.parts.split_first() {
            None => None,
            Some((part, _)) => Some(part.start),
        }
    }

    /// Opens a brace.
    pub(crate) fn open_brace(&mut self)
        requires { self.old.braces < 4_294_967_295 }
        ensures { nest self.new ≡ opened (nest self.old) }
    {
        self.braces += 1;
    }

    /// Closes a brace, or else the innermost part, where no brace in it is open: the start of the part's template.
    #[tactic(auto, unfolding(crate::specs::Nesting::closed))]
    pub(crate) fn close(&mut self) -> Option<u32>
        ensures value { (result, nest self.new) ≡ closed (nest self.old) }
        ensures braces { self.new.braces ≤ self.old.braces }
    {
        let Some((part, _)) = self.parts.split_last() else {
            self.braces = self.braces.saturating_sub(1);
            return None;
        };
        let part = *part;
        if part.braces != self.braces {
            self.braces = self.braces.saturating_sub(1);
            return None;
        }
        self.parts.pop();
        Some(part.start)
    }

    /// Opens a part of the template that starts at the place.
    pub(crate) fn open_part(&mut self, start: u32) -> Result<(), AllocError>
        ensures value { OnOk result (nest self.new ≡ behind_piece start false (nest self.old)) }
        ensures braces { self.new.braces ≡ self.old.braces }
    {
        let braces = self.braces;
        self.parts.push(Part { start, braces })?;
        Ok(())
    }
}
