//! An application that was read, and why there is none.
ghost use Rattle.std.specs.Prelude.{◌≡◌, ◌≤◌, Ok, length};
ghost use Rattle.js_source.specs.Source.{source_of};
ghost use Rattle.app_manifest.specs.declared.app.AppFault.TheVariants.{Memory};

use crate::name::FileName;
use js_source::SourceKind;
use js_tree::Tree;
use sqlite_items::Items;
use std::alloc::{AllocError, AllocFailed};
use world_heap::Limits;

/// A script: its bytes, at most 262,144, and the syntax tree that they are.
#[derive(Drop)]
pub struct Script {
    pub bytes: Items<u8>,
    pub tree: Tree,
    pub ghost short: { length bytes ≤ 262_144 },
    pub ghost read: { source_of bytes ≡ Ok tree },
}

/// The scripts of a window. A preload script that the manifest doesn't name is empty.
#[derive(Drop)]
pub struct WindowApp {
    pub preload: Script,
    pub page: Script,
}

/// An application: its limits, its main script, and the scripts of its windows, of which there are at most eight.
#[derive(Drop)]
pub struct App {
    pub limits: Limits,
    /// The name of the main script's file in the application's folder.
    pub name: FileName,
    pub main: Script,
    pub windows: Items<WindowApp>,
    pub ghost few: { length windows ≤ 8 },
}

/// Why an application isn't read. A file is named as the folder has it.
#[derive(Drop)]
pub enum AppFault {
    /// The folder couldn't read a file.
    Folder {
        file: Items<u8>,
    },
    /// There is no such file.
    Absent {
        file: Items<u8>,
    },
    /// A file has more bytes than its limit.
    TooLong {
        file: Items<u8>,
        limit: u32,
    },
    /// The manifest isn't JSON.
    Json {
        file: Items<u8>,
    },
    /// This key of the manifest is the first that is broken, `.` where it is no object.
    Shape {
        file: Items<u8>,
        key: Items<u8>,
    },
    /// A script has a fault at the byte offset, of that kind.
    Script {
        file: Items<u8>,
        place: u32,
        kind: SourceKind,
    },
    /// Memory ran out.
    Memory,
}

impl From<AllocError> for AppFault {
    ghost from_gives = { λ _ fault. fault ≡ Memory };

    fn from(_error: AllocError) -> AppFault {
        AppFault::Memory
    }
}

impl<T: Drop> From<AllocFailed<T>> for AppFault {
    ghost from_gives = { λ _ fault. fault ≡ Memory };

    fn from(_error: AllocFailed<T>) -> AppFault {
        AppFault::Memory
    }
}
