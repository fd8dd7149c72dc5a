ghost use Rattle.std.specs.Prelude.{◌≡◌, ◌≤◌, ◌+◌, ◌∷◌, ◌++◌, length, map};
ghost use Rattle.mm_types.specs.{spaced};
ghost use Rattle.mm_text.specs.{following};
ghost use Rattle.mm_script.specs.Field.{NamedOrDash};
ghost use Rattle.mm_script.specs.Grammar.{device_field, direction_field};
ghost use Rattle.mm_script.specs.Printed.{print};
ghost use Rattle.mm_script.specs.Pieces.{text_of_piece, width, width_of_all};

use mm_text::{LineBuf, put_bytes, put_decimal, put_hex_short};
use mm_types::{ByteBuf, Device, Direction, Name};

/// A word of a line, to be printed behind a space.
#[derive(Clone, Copy)]
pub enum Piece<'a> {
    /// A number below 256 in decimal.
    Small(u8),
    Decimal(u32),
    Hex(u32),
    Bytes(&'a ByteBuf),
    Name(&'a Name),
    NameOrDash(&'a Option<Name>),
    Device(Device),
    Direction(Direction),
}

/// The keyword and the words behind it.
#[tactic(auto, using(crate::proofs::Room::spaced_line))]
pub fn put_line(out: &mut LineBuf, keyword: &[u8], pieces: &[Piece])
    requires { length out.old + length keyword.now + width_of_all pieces.now ≤ 256 }
    ensures { out.new ≡ out.old ++ spaced keyword.now (map text_of_piece pieces.now) }
{
    out.push_slice(keyword);
    put_pieces(out, pieces);
}

fn put_pieces(out: &mut LineBuf, pieces: &[Piece])
    requires { length out.old + width_of_all pieces.now ≤ 256 }
    ensures { out.new ≡ out.old ++ following (map text_of_piece pieces.now) }
{
    for piece in pieces {
        put_piece(out, *piece);
    }
}

/// A space and a word.
#[tactic(auto, using(crate::proofs::Room::widths))]
fn put_piece(out: &mut LineBuf, piece: Piece)
    requires { length out.old + width piece ≤ 256 }
    ensures text { out.new ≡ out.old ++ 0x20 ∷ text_of_piece piece.entry }
    ensures len { length out.new ≤ length out.old + width piece.entry }
{
    out.push(b' ');
    match piece {
        Piece::Small(n) => put_decimal(out, u64::from(n)),
        Piece::Decimal(n) => put_decimal(out, u64::from(n)),
        Piece::Hex(n) => put_hex_short(out, n),
        Piece::Bytes(bytes) => put_bytes(out, bytes.as_slice()),
        Piece::Name(name) => out.push_slice(name.as_slice()),
        Piece::NameOrDash(Some(name)) => out.push_slice(name.as_slice()),
        Piece::NameOrDash(None) => out.push_slice(b"-"),
        Piece::Device(Device::Paging) => out.push_slice(b"paging"),
        Piece::Device(Device::File) => out.push_slice(b"file"),
        Piece::Direction(Direction::Read) => out.push_slice(b"read"),
        Piece::Direction(Direction::Write) => out.push_slice(b"write"),
    }
}
