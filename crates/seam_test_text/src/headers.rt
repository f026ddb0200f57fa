// How parts of a header are judged. What headers stand for, and which are refused, is in `rows/`.
use seam_toml::{Fault, Role, first_fault, has_fault, is_at_fault, read_document, read_settings};
use std::alloc::{AllocError, Global};
use std::test::Fail;
use toml::{Table, Value};

fn is_value_judged(alloc: Global, value: &Value) -> Result<bool, AllocError> {
    let default = is_at_fault(alloc, Fault::BadDefault, &Role::Default, value)?;
    Ok(!default && has_fault(alloc, Fault::BadType, &Role::Type, value)?)
}

fn is_document_judged(alloc: Global, document: &Table) -> Result<bool, AllocError> {
    let Some(value) = document.get("bases") else {
        return Ok(false);
    };
    let unset = read_settings(document).is_none();
    let first = first_fault(alloc, document)? == Some(Fault::NoSuchKey);
    Ok(unset && first && is_value_judged(alloc, value)?)
}

fn is_judged(alloc: Global) -> Result<bool, Fail> {
    let document = read_document(alloc, b"bases = 9").map_err(|_| "bases")?;
    Ok(is_document_judged(alloc, &document)?)
}

#[test]
fn parts_of_a_header_are_judged(rt: HostRuntime) -> Result<(), Fail> {
    let judged = is_judged(rt.alloc())?;
    let unknown = Role::Settings.under("speed").is_none();
    assert_eq!(rt; (judged, unknown), (true, true));
    Ok(())
}
