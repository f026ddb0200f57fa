// Headers as their texts say them.
ghost use Rattle.std.specs.Prelude.{◌≡◌, ℕ, IfOk, IfErr, List, MatchOption, codes};
ghost use Rattle.toml.specs.Data.{get_member, table as table_data};
ghost use Rattle.toml.specs.View.{table_view};
ghost use Rattle.seam_defs.specs.Settings.{AreLegal};
ghost use Rattle.seam_defs.specs.Types.{AreDefs};
ghost use Rattle.seam_toml.specs.Documents.{Refuses as NoDocument};
ghost use Rattle.seam_toml.specs.declared.faults.Fault.{Fault as Faults};
ghost use Rattle.seam_toml.specs.Settings.{Sets};
ghost use Rattle.seam_toml.specs.Faults.{HasFault, HeaderHas};
ghost use Rattle.seam_toml.specs.Header.{HasFaultUnder, SetsUnder, DefinesHeader, Reads, HasFirstFault, Refuses, number_of};

use crate::members::member;
use crate::types::definitions;
use crate::{DocumentError, Fault, Role, first_fault, read_document, read_settings};
use seam_defs::{Defs, Settings};
use std::alloc::{AllocError, Global};
use toml::Table;

/// What a header sets: the settings of the world, and the types of its entities.
#[derive(Drop)]
pub struct Header {
    pub settings: Settings,
    pub defs: Defs,
}

/// Why a text is no header.
#[derive(Clone, Copy, Debug, PartialEq, Eq)]
pub enum HeaderError {
    /// It is not UTF-8, or no TOML.
    NotToml,
    /// A table has a key that it may not have, or lacks one that it has to have.
    NoSuchKey,
    /// A value is of another kind than has to be under its key, or outside its range, or names no type or part.
    BadType,
    /// A text names no flag.
    BadFlag,
    /// A default does not fit the property's type.
    BadDefault,
    /// A text in a method's body says no operation.
    BadBody,
    /// There are more types, properties, methods, arguments or operations than may be.
    TooManyNames,
    /// The ghost distance is less than the view radius, the view hysteresis and the offload hysteresis together.
    GhostTooNear,
    /// The text has more than 65,536 bytes.
    TooLong,
    /// Allocation failed.
    NoMemory,
}

impl HeaderError {
    /// The number of the cause, from 1 to 9. `None` for want of memory.
    pub fn number(self) -> Option<u8>
        ensures { result ≡ number_of self }
    {
        match self {
            HeaderError::NotToml => Some(1),
            HeaderError::NoSuchKey => Some(2),
            HeaderError::BadType => Some(3),
            HeaderError::BadFlag => Some(4),
            HeaderError::BadDefault => Some(5),
            HeaderError::BadBody => Some(6),
            HeaderError::TooManyNames => Some(7),
            HeaderError::GhostTooNear => Some(8),
            HeaderError::TooLong => Some(9),
            HeaderError::NoMemory => None,
        }
    }
}

fn no_document(error: DocumentError) -> HeaderError
    ensures { (text : List ℕ) → NoDocument text error → Refuses text result }
{
    match error {
        DocumentError::TooLong => HeaderError::TooLong,
        DocumentError::NotToml => HeaderError::NotToml,
        DocumentError::NoMemory => HeaderError::NoMemory,
    }
}

fn at_fault(fault: Fault) -> HeaderError
    ensures { (text : List ℕ) → HasFirstFault text fault → Refuses text result }
{
    match fault {
        Fault::NoSuchKey => HeaderError::NoSuchKey,
        Fault::BadType => HeaderError::BadType,
        Fault::BadFlag => HeaderError::BadFlag,
        Fault::BadDefault => HeaderError::BadDefault,
        Fault::BadBody => HeaderError::BadBody,
        Fault::TooManyNames => HeaderError::TooManyNames,
        Fault::GhostTooNear => HeaderError::GhostTooNear,
    }
}

// The settings that a table sets, if they are legal.
fn legal_settings_in(table: &Table) -> Option<Settings>
    ensures { MatchOption result
        ((f : Faults) × HasFault f Role.Settings (table_data (table_view table.now)))
        (λ s. Sets (table_view table.now) s × AreLegal s) }
{
    match read_settings(table) {
        Some(settings) => {
            if settings.ghosts_reach() {
                Some(settings)
            } else {
                None
            }
        }
        None => None,
    }
}

// The settings that a header sets, if they are legal.
fn legal_settings(document: &Table) -> Option<Settings>
    ensures { let under = get_member (codes "settings") (table_view document.now) in
        MatchOption result
        (HasFaultUnder Role.Settings under)
        (λ s. SetsUnder under s × AreLegal s) }
{
    match member(document, "settings") {
        Some(value) => match value.as_table() {
            Some(table) => legal_settings_in(table),
            None => None,
        },
        None => Some(Settings::standard()),
    }
}

// The header that a document defines, if it has no fault.
fn header_of(alloc: Global, document: &Table) -> Result<Option<Header>, AllocError>
    ensures { IfOk result (λ read. MatchOption read
        (¬ ((f : Faults) → ¬ (HeaderHas (table_view document.now) f)))
        (DefinesHeader (table_view document.now))) }
{
    let Some(settings) = legal_settings(document) else {
        return Ok(None);
    };
    match definitions(alloc, document)? {
        Some(defs) => Ok(Some(Header { settings, defs })),
        None => Ok(None),
    }
}

/// The header that a text stands for: its settings, and the types of its entities, in the byte order of their names.
///
/// A text that is no header is refused with the first cause: `TooLong` if it has more than 65,536 bytes, `NotToml` if it is no TOML, and
/// else the first kind of fault, in the order of their numbers, that is found anywhere in it.
pub fn read_header(alloc: Global, text: &[u8]) -> Result<Header, HeaderError>
    ensures reads { IfOk result (Reads text.now) }
    ensures legal { IfOk result (λ h. AreLegal h.settings) }
    ensures sound { IfOk result (λ h. AreDefs h.defs) }
    ensures cause { IfErr result (Refuses text.now) }
{
    let document = match read_document(alloc, text) {
        Ok(document) => document,
        Err(error) => return Err(no_document(error)),
    };
    match first_fault(alloc, &document) {
        Ok(Some(fault)) => Err(at_fault(fault)),
        Ok(None) => match header_of(alloc, &document) {
            Ok(Some(header)) => Ok(header),
            // Each fault was sought.
            Ok(None) => unreachable!(),
            Err(_) => Err(HeaderError::NoMemory),
        },
        Err(_) => Err(HeaderError::NoMemory),
    }
}
