//! The keys of a manifest, one by one.
ghost use Rattle.std.specs.Prelude.{◌≡◌, ◌≤◌, [], Some, None, IfOk};
ghost use Rattle.std.specs.Option.{unwrap_or};
ghost use Rattle.serde_json.specs.Find.{as_str};
ghost use Rattle.serde_json.specs.View.{view, members_view};
ghost use Rattle.app_manifest.specs.Manifest.{is_name, key_in, is_known, unknown_member, unknown, name_broken, name_broken_or_missing, limit_broken, limit_said, text_at};
ghost use Rattle.app_manifest.specs.Answer.{IsBroken, Says, Passes, Names, itself};

use crate::name::FileName;
use crate::plan::{ManifestFault, Place};
use serde_json::{Map, Value};
use sqlite_items::Items;
use std::alloc::{AllocError, Global};

/// The refusal of a key, by the object that it stands in.
pub fn broken(alloc: Global, place: Place, key: &str) -> ManifestFault
    ensures { IsBroken (Some (key_in place key.now)) result }
{
    match key_text(alloc, place, key) {
        Ok(text) => ManifestFault::Shape(text),
        Err(_) => ManifestFault::Memory,
    }
}

// How a key is told.
#[tactic(auto, unfolding(crate::specs::Manifest::key_in))]
fn key_text(alloc: Global, place: Place, key: &str) -> Result<Items<u8>, AllocError>
    ensures { IfOk result (λ text. text ≡ key_in place key.now) }
{
    let text = match place {
        Place::Top => String::from_str(alloc, key)?,
        Place::Window(at) => format!(in alloc; "windows[{at}].{key}")?,
        Place::Limit => format!(in alloc; "limits.{key}")?,
    };
    Items::from_slice(alloc, text.as_bytes())
}

// The name that a value is.
#[tactic(auto, unfolding(crate::specs::Manifest::is_name))]
fn name_of(alloc: Global, value: &Value) -> Result<Option<FileName>, AllocError>
    ensures { IfOk result (λ name. Names name (is_name (view value.now)) (unwrap_or (as_str (view value.now)) [])) }
{
    match value.as_str() {
        Some(text) => FileName::of_text(alloc, text),
        None => Ok(None),
    }
}

/// The file name of a key that may be left out.
#[tactic(auto, unfolding(crate::specs::Manifest::name_broken, crate::specs::Manifest::text_at, crate::specs::Manifest::is_name))]
pub fn optional_name(
    alloc: Global,
    place: Place,
    key: &str,
    object: &Value,
) -> Result<Option<FileName>, ManifestFault>
    ensures { Says itself result (name_broken place key.now (view object.now)) (text_at key.now (view object.now)) }
{
    let Some(value) = object.get(key) else {
        return Ok(None);
    };
    match name_of(alloc, value)? {
        Some(name) => Ok(Some(name)),
        None => Err(broken(alloc, place, key)),
    }
}

/// The file name of a key that must be there.
#[tactic(auto, unfolding(crate::specs::Manifest::name_broken_or_missing, crate::specs::Manifest::text_at, crate::specs::Manifest::is_name))]
pub fn required_name(
    alloc: Global,
    place: Place,
    key: &str,
    object: &Value,
) -> Result<FileName, ManifestFault>
    ensures { Says itself result (name_broken_or_missing place key.now (view object.now)) (unwrap_or (text_at key.now (view object.now)) []) }
{
    let Some(value) = object.get(key) else {
        return Err(broken(alloc, place, key));
    };
    match name_of(alloc, value)? {
        Some(name) => Ok(name),
        None => Err(broken(alloc, place, key)),
    }
}

/// A limit, a whole number from 1 to its default, or that default where the key is left out.
#[tactic(auto, unfolding(crate::specs::Manifest::limit_broken, crate::specs::Manifest::limit_said, crate::specs::Manifest::is_amount))]
pub fn limit(alloc: Global, key: &str, default: u64, limits: &Value) -> Result<u64, ManifestFault>
    requires { 1 ≤ default }
    ensures exact { Says itself result (limit_broken key.now default (view limits.now)) (limit_said key.now default (view limits.now)) }
    ensures some { IfOk result (λ amount. 1 ≤ amount) }
    ensures most { IfOk result (λ amount. amount ≤ default) }
{
    let Some(value) = limits.get(key) else {
        return Ok(default);
    };
    match value.as_u64() {
        Some(amount) if 1 <= amount && amount <= default => Ok(amount),
        _ => Err(broken(alloc, Place::Limit, key)),
    }
}

// Whether an object may have the key.
#[tactic(auto, unfolding(crate::specs::Manifest::is_known))]
fn is_known(place: Place, key: &str) -> bool
    ensures { result ≡ is_known place key.now }
{
    match place {
        Place::Top => key == "main" || key == "windows" || key == "limits",
        Place::Window(_) => key == "preload" || key == "page",
        Place::Limit => {
            key == "steps" || key == "cells" || key == "places" || key == "units" || key == "depth"
        }
    }
}

/// Refuses the first unknown key of an object.
#[tactic(auto, unfolding(crate::specs::Manifest::unknown))]
pub fn refuse_unknown(alloc: Global, place: Place, object: &Value) -> Result<(), ManifestFault>
    ensures { Passes result (unknown place (view object.now)) }
{
    match object.as_object() {
        None => Ok(()),
        Some(members) => refuse_unknown_member(alloc, place, members),
    }
}

// The same of its members.
fn refuse_unknown_member(
    alloc: Global,
    place: Place,
    members: &Map<String, Value>,
) -> Result<(), ManifestFault>
    ensures { Passes result (unknown_member place (members_view members.now.entries)) }
{
    'members: for (key, _) in members.iter() {
        if !is_known(place, key.as_str()) {
            return Err(broken(alloc, place, key.as_str()));
        }
    }
    Ok(())
}
