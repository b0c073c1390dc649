ghost use Rattle.std.specs.Prelude.{◌≡◌, IfOk};

use crate::NoMemory;
use std::alloc::Global;

/// A value that can be made a second time. It differs from `Clone` in that contracts know the
/// copy to be the same value.
pub trait Copied {
    /// The same value again.
    fn copied(&self, alloc: Global) -> Result<Self, NoMemory>
        ensures { IfOk result (λ again. again ≡ self.now) };
}

impl Copied for u32 {
    fn copied(&self, _alloc: Global) -> Result<u32, NoMemory> {
        Ok(*self)
    }
}

impl Copied for u8 {
    fn copied(&self, _alloc: Global) -> Result<u8, NoMemory> {
        Ok(*self)
    }
}

impl Copied for bool {
    fn copied(&self, _alloc: Global) -> Result<bool, NoMemory> {
        Ok(*self)
    }
}
