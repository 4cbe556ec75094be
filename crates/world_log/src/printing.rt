//! How an item of the log is printed.
ghost use Rattle.std.specs.Prelude.{◌≡◌, ◌++◌, IfOk, OnOk};
ghost use Rattle.wl_text.specs.Text.{quoted};
ghost use Rattle.world_log.specs.Print.{printed, named, entry_words, delivery_words, product_words, level_word, stop_word};

use crate::entry::{Delivery, Entry, Level, LogItem, Product, Stop, WorldName};
use std::alloc::{AllocError, Global};
use wl_text::Units;
use world_kind::WorldKind;

/// The line of an item, with its line feed. It takes time and memory linear in the line.
#[tactic(auto, unfolding(crate::specs::Print::printed))]
pub fn print(alloc: Global, item: &LogItem) -> Result<Vec<u8>, AllocError>
    ensures { IfOk result (λ line. line.items ≡ printed item.now) }
{
    let mut line = Vec::new(alloc);
    match item {
        LogItem::World(name, entry) => {
            push_name(alloc, &mut line, name)?;
            push_entry(alloc, &mut line, entry)?;
        }
    }
    line.push(b'\n')?;
    Ok(line)
}

// The world's name.
#[tactic(auto, unfolding(crate::specs::Print::named))]
fn push_name(alloc: Global, line: &mut Vec<u8>, name: &WorldName) -> Result<(), AllocError>
    ensures { OnOk result (line.new.items ≡ line.old.items ++ named name.now) }
{
    let window = name.window;
    let generation = name.generation;
    let text = match name.kind {
        WorldKind::Main => format!(in alloc; "main")?,
        WorldKind::Preload => format!(in alloc; "preload{window}.{generation}")?,
        WorldKind::Page => format!(in alloc; "page{window}.{generation}")?,
    };
    line.extend_from_slice(text.as_bytes())?;
    Ok(())
}

// The arrow, the word and its values, each after a space.
#[tactic(auto, unfolding(crate::specs::Print::entry_words))]
fn push_entry(alloc: Global, line: &mut Vec<u8>, entry: &Entry) -> Result<(), AllocError>
    ensures { OnOk result (line.new.items ≡ line.old.items ++ entry_words entry.now) }
{
    match entry {
        Entry::Delivery { fresh: true, what } => {
            line.extend_from_slice(b" << ")?;
            push_delivery(line, what)?;
        }
        Entry::Delivery { fresh: false, what } => {
            line.extend_from_slice(b" < ")?;
            push_delivery(line, what)?;
        }
        Entry::Product(what) => {
            line.extend_from_slice(b" > ")?;
            push_product(alloc, line, what)?;
        }
    }
    Ok(())
}

// The word of a delivery and its values.
fn push_delivery(line: &mut Vec<u8>, what: &Delivery) -> Result<(), AllocError>
    ensures { OnOk result (line.new.items ≡ line.old.items ++ delivery_words what.now) }
{
    match what {
        Delivery::Load => line.extend_from_slice(b"load")?,
    }
    Ok(())
}

// The word of a product and its values.
fn push_product(alloc: Global, line: &mut Vec<u8>, what: &Product) -> Result<(), AllocError>
    ensures { OnOk result (line.new.items ≡ line.old.items ++ product_words what.now) }
{
    match what {
        Product::Console(level, text) => {
            line.extend_from_slice(b"console ")?;
            line.extend_from_slice(word_of(*level).as_bytes())?;
            line.push(b' ')?;
            push_text(alloc, line, text)?;
        }
        Product::Uncaught(text) => {
            line.extend_from_slice(b"uncaught ")?;
            push_text(alloc, line, text)?;
        }
        Product::Rest(jobs) => {
            let text = format!(in alloc; "rest {jobs}")?;
            line.extend_from_slice(text.as_bytes())?;
        }
        Product::Stopped(stop) => {
            line.extend_from_slice(b"stopped ")?;
            line.extend_from_slice(stop_of(*stop).as_bytes())?;
        }
    }
    Ok(())
}

// A text in quotes.
fn push_text(alloc: Global, line: &mut Vec<u8>, text: &Units) -> Result<(), AllocError>
    ensures { OnOk result (line.new.items ≡ line.old.items ++ quoted text.now) }
{
    line.extend_from_slice(text.quoted(alloc)?.as_slice())?;
    Ok(())
}

// The word of a level.
fn word_of(level: Level) -> &'static str
    ensures { result.now ≡ level_word level }
{
    match level {
        Level::Log => "log",
        Level::Info => "info",
        Level::Warn => "warn",
        Level::Error => "error",
    }
}

// The word of the count that a world stopped at.
fn stop_of(stop: Stop) -> &'static str
    ensures { result.now ≡ stop_word stop }
{
    match stop {
        Stop::Fuel => "fuel",
        Stop::Cells => "cells",
        Stop::Places => "places",
        Stop::Units => "units",
    }
}
