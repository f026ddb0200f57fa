// The built-in types.
use seam_defs::Defs;
use std::alloc::{AllocError, Global};

pub(crate) const AVATAR: u16 = 0;

pub(crate) const CHEST: u16 = 1;

// A call of its own, without a clause: what the built-in types are is not computed again for each call on them.
pub(crate) fn builtin(alloc: Global) -> Result<Defs, AllocError> {
    seam_toml::builtin(alloc)
}

// What may go from one thread to another.
pub(crate) fn sent<T: Send>(value: T) -> T {
    value
}
