//! Texts that several threads write, each of some of the residents.

ghost use Rattle.std.specs.Prelude.{◌≡◌, ◌++◌, ◌<◌, map, Ok, IfOk, IfSome, OnOk};
ghost use Rattle.std.specs.List.{flat_map};
ghost use Rattle.std.specs.declared.alloc.AllocError.{AllocError};
ghost use Rattle.seam_world_text.specs.declared.chunks.Texts.{Texts};

use std::alloc::{AllocError, Global};

// Of so many residents several threads write, of fewer the caller alone: their reals and parts lie near it, and have to come to others.
const FEWEST: usize = 8192;

/// How many threads write a round's text, if there is much of it, and the handle that starts them.
#[derive(Drop)]
pub struct Writers<'a, R> {
    pub rt: &'a R,
    pub threads: usize,
}

/// Two texts of the same residents, both in rising number.
#[derive(Drop)]
pub struct Texts {
    pub first: Vec<u8>,
    pub second: Vec<u8>,
}

/// How many residents each thread writes of at most, where so many threads write of `count`; none where the caller writes of all.
pub fn chunk_size(count: usize, threads: usize) -> Option<usize>
    ensures { IfSome result (λ n. 0 < n) }
{
    if threads < 2 || count < FEWEST {
        return None;
    }
    Some(count / threads + 1)
}

/// The texts of all chunks. An error where allocation failed for one.
pub fn all_written(
    alloc: Global,
    chunks: Vec<Result<Texts, AllocError>>,
) -> Result<Vec<Texts>, AllocError>
    ensures { IfOk result (λ ts. map Ok ts.items ≡ chunks.items) }
{
    let mut texts = Vec::new(alloc);
    for chunk in chunks {
        texts.push(chunk?)?;
    }
    Ok(texts)
}

/// Appends the first texts, one after the other.
pub fn push_first(out: &mut Vec<u8>, texts: &Vec<Texts>) -> Result<(), AllocError>
    ensures { OnOk result (out.new.items
        ≡ out.old.items ++ flat_map (λ t. t.first.items) texts.now.items) }
{
    for text in texts {
        out.extend_from_slice(&text.first)?;
    }
    Ok(())
}

/// Appends the second texts, one after the other, and gives each chunk's memory back as soon as its text is there.
pub fn push_second(out: &mut Vec<u8>, texts: Vec<Texts>) -> Result<(), AllocError>
    ensures { OnOk result (out.new.items
        ≡ out.old.items ++ flat_map (λ t. t.second.items) texts.items) }
{
    for text in texts {
        out.extend_from_slice(&text.second)?;
    }
    Ok(())
}
