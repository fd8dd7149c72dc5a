ghost use Rattle.std.specs.Prelude.{◌≡◌, ◌++◌, map, take, OnOk};
ghost use Rattle.mm_log_walk.specs.{is_plain_byte, shown_byte, shown_line};

use mm_types::NoMemory;

fn is_plain(byte: u8) -> bool
    ensures { result ≡ is_plain_byte byte }
{
    byte >= 32 && byte <= 126 && !(byte == b'&' || byte == b'<')
}

fn shown_byte(byte: u8) -> u8
    ensures { result ≡ shown_byte byte }
{
    if is_plain(byte) { byte } else { b'?' }
}

/// At most 256 bytes of a line.
fn front(line: &[u8]) -> &[u8]
    ensures { result.now ≡ take 256 line.now }
{
    if line.len() > 256 { &line[..256] } else { line }
}

fn put_bytes(bytes: &[u8], text: &mut Vec<u8>) -> Result<(), NoMemory>
    ensures { OnOk result (text.new.items ≡ text.old.items ++ map shown_byte bytes.now) }
{
    for byte in bytes {
        text.push(shown_byte(*byte))?;
    }
    Ok(())
}

/// Writes a line as the page's data has it.
pub fn put_line(line: &[u8], text: &mut Vec<u8>) -> Result<(), NoMemory>
    ensures { OnOk result (text.new.items ≡ text.old.items ++ shown_line line.now) }
{
    put_bytes(front(line), text)?;
    text.push(b'\n')?;
    Ok(())
}
