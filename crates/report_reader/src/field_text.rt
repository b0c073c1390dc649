// The fields of a line: each is a blank and the bytes up to the next blank.
ghost use Rattle.std.specs.Prelude.{◌≡◌};
ghost use Rattle.report_reader.specs.Reading.{IsReading, before, onward, field_at, number_of};
ghost use Rattle.report_reader.specs.Reading.{number_at, small_at, end_at};

use itoa::Buffer;

/// The bytes before the first such byte, and those from it on.
pub fn split_before(end: u8, bytes: &[u8]) -> (&[u8], &[u8])
    ensures before { result.0.now ≡ before end bytes.now }
    ensures onward { result.1.now ≡ onward end bytes.now }
{
    for (at, byte) in bytes.iter().enumerate() {
        if *byte == end {
            return bytes.split_at(at);
        }
    }
    (bytes, &[])
}

/// The text of a field, and the bytes behind it.
pub fn read_field(bytes: &[u8]) -> Option<(&[u8], &[u8])>
    ensures { IsReading (λ x. (x.0.now, x.1.now)) result (field_at bytes.now) }
{
    match bytes {
        [b' ', rest @ ..] => Some(split_before(b' ', rest)),
        _ => None,
    }
}

/// The number whose decimal text this is.
fn number_of_text(text: &[u8]) -> Option<u64>
    ensures { IsReading (λ x. x) result (number_of text.now) }
{
    let Ok(digits) = std::str::from_utf8(text) else {
        return None;
    };
    let Ok(number) = digits.parse::<u64>() else {
        return None;
    };
    // The text of the number is compared, since parsing takes a plus and leading zeros too.
    let mut buffer = Buffer::new();
    if buffer.format(number).as_bytes() == text {
        Some(number)
    } else {
        None
    }
}

/// A number of 64 bits.
#[tactic(auto, unfolding(crate::specs::Reading::number_at))]
pub fn read_number(bytes: &[u8]) -> Option<(u64, &[u8])>
    ensures { IsReading (λ x. (x.0, x.1.now)) result (number_at bytes.now) }
{
    let (text, rest) = read_field(bytes)?;
    let number = number_of_text(text)?;
    Some((number, rest))
}

/// A number of 32 bits.
#[tactic(auto, unfolding(crate::specs::Reading::small_at))]
pub fn read_small(bytes: &[u8]) -> Option<(u32, &[u8])>
    ensures { IsReading (λ x. (x.0, x.1.now)) result (small_at bytes.now) }
{
    let (number, rest) = read_number(bytes)?;
    if number <= u32::MAX as u64 {
        Some((number as u32, rest))
    } else {
        None
    }
}

/// Refuses anything more.
pub fn read_end(bytes: &[u8]) -> Option<()>
    ensures { IsReading (λ _. tt) result (end_at bytes.now) }
{
    match bytes {
        [] => Some(()),
        _ => None,
    }
}
