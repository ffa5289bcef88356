// The writing of a day file.
ghost use Rattle.std.specs.Prelude.{◌≡◌, ◌++◌, map, ◌^◌, ◌<◌, length as size, replicate};
ghost use Rattle.rules.specs.Lists.{joined};
ghost use Rattle.rules.specs.File.{bits_in, packed, head_length, put_file};
ghost use Rattle.dayfile.specs.Fields.{with_fields};

use crate::head::{HEAD_BITS, VERTEX_BITS};
use crate::shapes::Header;

// Writes the vertices from bit 32 on, 13 bits each; bits past the end are dropped.
fn write_vertices(bytes: &mut [u8], vertices: &[u32])
    requires { size bytes.old < 2 ^ 60 }
    ensures { bytes.new ≡ with_fields bytes.old 32 vertices.now }
{
    let mut at = HEAD_BITS as usize;
    for vertex in vertices {
        if at / 8 >= bytes.len() {
            return;
        }
        bits::write_field(bytes, at, VERTEX_BITS, *vertex);
        at += VERTEX_BITS as usize;
    }
}

// Makes the bytes a file: the first 32 bits, the vertices, then zero bits.
fn fill(bytes: &mut [u8], head: Header, vertices: &[u32])
    requires { size bytes.old < 2 ^ 60 }
    ensures { bytes.new ≡ packed (size bytes.old) (bits_in 32 head.0 ++ joined (map (bits_in 13) vertices.now)) }
{
    bytes.fill(0);
    bits::write_field(bytes, 0, HEAD_BITS, head.0);
    write_vertices(bytes, vertices);
}

// Writes the file with that head and those vertices, if the bytes have room for it, and leaves later bytes as they were. Gives the file's length.
pub fn write(head: Header, vertices: &[u32], bytes: &mut [u8]) -> usize
    ensures { (result ≡ head_length head.0) × (bytes.new ≡ put_file head.0 vertices.now bytes.old) }
{
    let n = head.length();
    let room = bytes.len();
    if n <= room {
        fill(&mut bytes[..n], head, vertices);
    }
    n
}
