// SPDX-License-Identifier: MIT

// What a call that was given an item answers if allocation fails.

/// Allocation failed. The item that was given comes back.
#[derive(Debug, Drop, PartialEq, Eq)]
pub struct NoMemoryFor<T> {
    pub item: T,
}
