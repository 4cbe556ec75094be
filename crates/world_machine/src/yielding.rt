//! How a world yields.
ghost use Rattle.std.specs.Prelude.{◌≡◌, ◌-◌, Some, slice_get, length};
ghost use Rattle.world_machine.specs.Yields.{product_of};

use world_log::{Product, Stop};

/// How a world has ended its turn: it rests, with so many jobs waiting, or has stopped for good.
#[derive(Debug, Drop, Clone, Copy, PartialEq, Eq)]
pub enum Yield {
    Rest(u64),
    Stopped(Stop),
}

// The yield that is the last product.
pub(crate) fn last_yield(products: &[Product]) -> Yield
    requires { (y : _) × (slice_get products.now (length products.now - 1) ≡ Some (product_of y)) }
    ensures { slice_get products.now (length products.now - 1) ≡ Some (product_of result) }
{
    match products.last() {
        Some(Product::Rest(jobs)) => Yield::Rest(*jobs),
        Some(Product::Stopped(stop)) => Yield::Stopped(*stop),
        _ => unreachable!(),
    }
}
