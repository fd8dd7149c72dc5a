ghost use Rattle.std.specs.Prelude.{◌≡◌, ◌++◌, ◌∷◌, [], OnOk};
ghost use Rattle.mm_csv.specs.{is_special, is_quoted, doubled, csv_field, csv_next, head_left};

use mm_types::NoMemory;

/// A byte that a field may hold between quotes alone.
fn is_special(byte: u8) -> bool
    ensures { result ≡ is_special byte }
{
    byte == b',' || byte == b'"' || byte == b'\r' || byte == b'\n'
}

/// Whether a field stands between quotes.
fn is_quoted(field: &[u8]) -> bool
    ensures { result ≡ is_quoted field.now }
{
    for i in 0..field.len() {
        if is_special(field[i]) {
            return true;
        }
    }
    false
}

/// Writes a byte of a field that stands between quotes.
fn put_inner(byte: u8, text: &mut Vec<u8>) -> Result<(), NoMemory>
    ensures { OnOk result (text.new.items ≡ text.old.items ++ doubled (byte ∷ [])) }
{
    if byte == b'"' {
        text.push(b'"')?;
    }
    text.push(byte)?;
    Ok(())
}

/// Writes a field, each quote twice.
#[tactic(auto, using(crate::proofs::Doubling::doubling))]
fn put_doubled(field: &[u8], text: &mut Vec<u8>) -> Result<(), NoMemory>
    ensures { OnOk result (text.new.items ≡ text.old.items ++ doubled field.now) }
{
    for byte in field {
        put_inner(*byte, text)?;
    }
    Ok(())
}

/// Writes a field between quotes.
#[tactic(auto, using(crate::proofs::Doubling::joined))]
fn put_quoted(field: &[u8], text: &mut Vec<u8>) -> Result<(), NoMemory>
    ensures { OnOk result (text.new.items ≡ text.old.items ++ 34 ∷ (doubled field.now ++ 34 ∷ [])) }
{
    text.push(b'"')?;
    put_doubled(field, text)?;
    text.push(b'"')?;
    Ok(())
}

/// Writes a field: as it stands, or between quotes where it holds a comma, a quote or the end of a
/// line.
pub fn put_field(field: &[u8], text: &mut Vec<u8>) -> Result<(), NoMemory>
    ensures { OnOk result (text.new.items ≡ text.old.items ++ csv_field field.now) }
{
    if is_quoted(field) {
        put_quoted(field, text)
    } else {
        text.extend_from_slice(field)?;
        Ok(())
    }
}

/// Writes a field behind another: a comma, and the field.
#[tactic(auto, using(crate::proofs::Doubling::joined))]
pub fn put_next(field: &[u8], text: &mut Vec<u8>) -> Result<(), NoMemory>
    ensures { OnOk result (text.new.items ≡ text.old.items ++ csv_next field.now) }
{
    text.push(b',')?;
    put_field(field, text)
}

/// Writes the head of a table, unless it stands.
pub fn put_head_left(begun: bool, head: &[u8], text: &mut Vec<u8>) -> Result<(), NoMemory>
    ensures { OnOk result (text.new.items ≡ text.old.items ++ head_left begun head.now) }
{
    if !begun {
        text.extend_from_slice(head)?;
    }
    Ok(())
}
