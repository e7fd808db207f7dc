// Ids in double quotes: what cannot be printed as it is stands there in base sixteen.
ghost use Rattle.std.specs.Prelude.{◌≡◌, ◌<◌, [], ◌∷◌, ◌++◌, string_bytes, OnOk};
ghost use Rattle.lines.specs.Quotes.{hex_digit, hex_escape, escape, quote};

use std::alloc::AllocError;

// Appends the id in quotes.
pub fn quoted(line: &mut String, id: &[u8]) -> Result<(), AllocError>
    ensures { OnOk result (string_bytes line.new ≡ string_bytes line.old ++ quote id.now) }
{
    put(line, b'"')?;
    for b in id {
        escaped(line, *b)?;
    }
    put(line, b'"')?;
    Ok(())
}

// Appends one byte of an id.
fn escaped(line: &mut String, b: u8) -> Result<(), AllocError>
    ensures { OnOk result (string_bytes line.new ≡ string_bytes line.old ++ escape b) }
{
    match b {
        b'"' => line.push_str("\\\"")?,
        b'\\' => line.push_str("\\\\")?,
        b' '..=b'~' => put(line, b)?,
        _ => in_hex(line, b)?,
    }
    Ok(())
}

// Two digits put one by one: a format with two places takes nearly three times the time.
fn in_hex(line: &mut String, b: u8) -> Result<(), AllocError>
    ensures { OnOk result (string_bytes line.new ≡ string_bytes line.old ++ hex_escape b) }
{
    line.push_str("\\x")?;
    put(line, hex_digit(b / 16))?;
    put(line, hex_digit(b % 16))?;
    Ok(())
}

// The digit as a character: 0 to 9, then a to f.
fn hex_digit(d: u8) -> u8
    requires { d < 16 }
    ensures value { result ≡ hex_digit d }
    ensures ascii { result < 128 }
{
    if d < 10 { b'0' + d } else { b'a' + (d - 10) }
}

// Appends a character, which is one byte.
pub(crate) fn put(line: &mut String, c: u8) -> Result<(), AllocError>
    requires { c < 128 }
    ensures { OnOk result (string_bytes line.new ≡ string_bytes line.old ++ (c ∷ [])) }
{
    line.push(c as char)?;
    Ok(())
}
