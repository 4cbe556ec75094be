//! What a manifest says, and why it says nothing.
ghost use Rattle.std.specs.Prelude.{◌≡◌, ◌≤◌, length};
ghost use Rattle.app_manifest.specs.declared.plan.ManifestFault.TheVariants.{Memory};

use crate::name::FileName;
use sqlite_items::Items;
use std::alloc::{AllocError, AllocFailed};
use world_heap::Limits;

/// The files of a window.
#[derive(Drop)]
pub struct WindowPlan {
    /// The preload script, where there is one.
    pub preload: Option<FileName>,
    /// The page script.
    pub page: FileName,
}

/// The files of an application and its limits.
#[derive(Drop)]
pub struct Plan {
    pub main: FileName,
    pub windows: Items<WindowPlan>,
    pub limits: Limits,
    pub ghost few: { length windows ≤ 8 },
}

/// The object that a key stands in.
#[derive(Debug, Drop, Clone, Copy, PartialEq, Eq)]
pub enum Place {
    /// The manifest itself.
    Top,
    /// The window with that index.
    Window(usize),
    /// The limits.
    Limit,
}

/// Why the bytes of a manifest say nothing.
#[derive(Drop)]
pub enum ManifestFault {
    /// They are no JSON text in UTF-8, or its arrays and objects nest more than 127 deep.
    Json,
    /// This is the first broken key.
    Shape(Items<u8>),
    /// Memory ran out.
    Memory,
}

impl From<AllocError> for ManifestFault {
    ghost from_gives = { λ _ fault. fault ≡ Memory };

    fn from(_error: AllocError) -> ManifestFault {
        ManifestFault::Memory
    }
}

impl<T: Drop> From<AllocFailed<T>> for ManifestFault {
    ghost from_gives = { λ _ fault. fault ≡ Memory };

    fn from(_error: AllocFailed<T>) -> ManifestFault {
        ManifestFault::Memory
    }
}
