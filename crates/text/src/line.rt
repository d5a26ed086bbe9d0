// The line that the program reads.
ghost use Rattle.std.specs.Prelude.{◌<◌};
ghost use Rattle.text.specs.Line.{ReadsLine};
ghost use Rattle.text.specs.Line.Fields.{ReadsField};

use steps::Pool;

// The field that a text begins with: one to five digits, and the byte that ends them, which is below the digits. The answer is its
// number and the text after it.
fn read_field(text: &[u8], end: u8) -> Option<(u32, &[u8])>
    requires { end < 48 }
    ensures { ReadsField end text.now result }
{
    let mut value: u32 = 0;
    for (digits, &byte) in text.iter().enumerate() {
        match byte {
            b'0'..=b'9' if digits < 5 => value = value * 10 + u32::from(byte - b'0'),
            _ if byte == end && digits > 0 => return Some((value, &text[digits + 1..])),
            _ => return None,
        }
    }
    None
}

// Any bytes may be given.
pub fn read_line(input: &[u8]) -> Option<Pool>
    ensures { ReadsLine input.now result }
{
    let (assets, rest) = read_field(input, b' ')?;
    let (probability, rest) = read_field(rest, b' ')?;
    let (correlation, rest) = read_field(rest, b'\n')?;
    if !rest.is_empty() {
        return None;
    }
    Some(Pool {
        assets,
        probability,
        correlation,
    })
}
