ghost use Rattle.std.specs.Prelude.{◌<◌, ◌≤◌};

use seam_io::Source;
use seam_storm::StormSource;
use std::alloc::{AllocError, Global};
use std::test::Fail;

// The input of one line, read by at most so many bytes at once.
fn text_by(alloc: Global, most: usize) -> Result<Vec<u8>, AllocError>
    requires some { 0 < most }
    requires fits { most ≤ 4096 }
{
    let mut source = StormSource::new(alloc, 1)?;
    let mut text = Vec::new(alloc);
    let mut buffer = [0; 4096];
    for _ in 0..4000 {
        let Ok(count) = source.read(&mut buffer[..most]) else {
            break;
        };
        if count == 0 {
            break;
        }
        text.extend_from_slice(&buffer[..count])?;
    }
    Ok(text)
}

const FIRST_LINES: &[u8] =
    b"%%\ncut 0 x 5000\ncut 0 z 5000\ncut 1 z 5000\ncreate 1 Avatar 100 100\ncreate 2 Avatar 1350 100\n";

#[test]
fn one_line_is_the_stated_one(rt: HostRuntime) -> Result<(), Fail> {
    let text = text_by(rt.alloc(), 4096)?;
    let by_one = text_by(rt.alloc(), 1)? == text;
    let by_seven = text_by(rt.alloc(), 7)? == text;
    let begins = text.starts_with(FIRST_LINES);
    let ends = text.ends_with(b"client 8\ncall b1 23 heal 35\n");
    assert_eq!(rt; (begins, ends, by_one, by_seven), (true, true, true, true));
    Ok(())
}
