use seam_value::{ShortText, Value, ValueError, ValueType};
use std::alloc::{AllocError, Global};
use std::test::Fail;

fn text(alloc: Global, bytes: &[u8]) -> Result<Value, ValueError> {
    Ok(Value::Text(ShortText::new(alloc, bytes)?))
}

fn spelling(alloc: Global, value: &Value) -> Result<Vec<u8>, AllocError> {
    let mut out = Vec::from_slice(alloc, b"=")?;
    value.write(&mut out)?;
    Ok(out)
}

// How many spellings are read as the rows say before the first one that is not.
fn kept_rows(alloc: Global) -> usize {
    let rows = [
        (b"-128".as_slice(), ValueType::Int8, Ok(Value::Number(-128))),
        (b"128", ValueType::Int8, Err(ValueError::OutOfRange)),
        (b"007", ValueType::Int8, Err(ValueError::NotNumber)),
        (br#""a\"b""#, ValueType::Text, text(alloc, br#"a"b"#)),
        (br#""a"#, ValueType::Text, Err(ValueError::BadString)),
    ];
    let mut kept = 0usize;
    for (bytes, t, value) in rows {
        if Value::parse(alloc, bytes, t) != value {
            return kept;
        }
        kept = kept.saturating_add(1);
    }
    kept
}

fn is_text(bytes: &[u8], wanted: &[u8]) -> bool {
    bytes == wanted
}

// Whether a copy is the value, and is written as these bytes.
fn is_written(alloc: Global, value: &Value, bytes: &[u8]) -> Result<bool, AllocError> {
    let copy = value.copy(alloc)?;
    let written = spelling(alloc, &copy)?;
    Ok(copy == *value && is_text(&written, bytes))
}

fn text_is_written(alloc: Global) -> Result<bool, Fail> {
    let value = text(alloc, b"a\"b\\c\nd")?;
    Ok(is_written(alloc, &value, br#"="a\"b\\c\nd""#)?)
}

fn texts_are_short(alloc: Global) -> Result<bool, Fail> {
    let short = ShortText::new(alloc, b"ab")?;
    let long = ShortText::new(alloc, &[b'a'; 256]) == Err(ValueError::TooLong);
    Ok(long && is_text(short.bytes(), b"ab"))
}

fn sent<T: Send>(value: T) -> T {
    value
}

#[test]
fn values_are_read_copied_written_and_sent_between_threads(rt: HostRuntime) -> Result<(), Fail> {
    let number = is_written(rt.alloc(), &Value::Number(-128), b"=-128")?;
    let text = text_is_written(rt.alloc())?;
    let short = texts_are_short(rt.alloc())?;
    let crosses = sent(Value::Number(1)) == Value::Number(1);
    assert_eq!(rt;
        (kept_rows(rt.alloc()), number, text, short, crosses),
        (5, true, true, true, true)
    );
    Ok(())
}
