//! The entries of the log.
ghost use Rattle.std.specs.Prelude.{◌≡◌};
ghost use Rattle.world_kind.specs.declared.WorldKind.TheVariants.{Main};

use wl_text::Units;
use world_kind::WorldKind;

/// The name of a world: its kind, and for a window's worlds the number of the window and of its generation. Both
/// numbers of the main world are 0.
#[derive(Debug, Drop, Clone, Copy, PartialEq, Eq)]
pub struct WorldName {
    pub kind: WorldKind,
    pub window: u32,
    pub generation: u32,
    pub ghost main_window: { kind ≡ Main → window ≡ 0 },
    pub ghost main_generation: { kind ≡ Main → generation ≡ 0 },
}

impl WorldName {
    /// The name of the main world.
    pub const MAIN: WorldName = WorldName {
        kind: WorldKind::Main,
        window: 0,
        generation: 0,
    };
}

/// The levels of the console (Console Standard, 2.3).
#[derive(Debug, Drop, Clone, Copy, PartialEq, Eq)]
pub enum Level {
    Log,
    Info,
    Warn,
    Error,
}

/// What is delivered to a world.
#[derive(Debug, Drop, Clone, Copy, PartialEq, Eq)]
pub enum Delivery {
    /// The world's script is to run.
    Load,
}

/// The count that would have passed its limit when a world stopped: steps, cells, places, or units of texts.
#[derive(Debug, Drop, Clone, Copy, PartialEq, Eq)]
pub enum Stop {
    Fuel,
    Cells,
    Places,
    Units,
}

/// What a world makes.
#[derive(Drop)]
pub enum Product {
    /// A line of the console.
    Console(Level, Units),
    /// The display of a thrown value that nothing caught.
    Uncaught(Units),
    /// The world has nothing more to do now; this many jobs wait.
    Rest(u64),
    /// The world has stopped for good.
    Stopped(Stop),
}

/// An entry of one world: a delivery, `fresh` where it is the first to that world in its task and fills its steps, or a
/// product.
#[derive(Drop)]
pub enum Entry {
    Delivery { fresh: bool, what: Delivery },
    Product(Product),
}

/// An item of the log.
#[derive(Drop)]
pub enum LogItem {
    World(WorldName, Entry),
}
