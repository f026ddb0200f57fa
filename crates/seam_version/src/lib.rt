// SPDX-License-Identifier: MIT

//! The versions of an entity in the order in which a client may be shown them: none after a greater one.
#![tactic(auto)]

ghost use Rattle.std.specs.Prelude.{◌≡◌, ◌≤◌, true, IfSome};
ghost use Rattle.seam_version.specs.Versions.{not_older};

/// Whether a client may be shown an entity at this version, to whom it was last shown at the other one, if it ever was.
pub fn may_be_shown(shown: Option<u64>, version: u64) -> bool
    ensures value { result ≡ not_older shown version }
    ensures never_older { result ≡ true → IfSome shown (λ last. last ≤ version) }
{
    match shown {
        Some(shown) => shown <= version,
        None => true,
    }
}
