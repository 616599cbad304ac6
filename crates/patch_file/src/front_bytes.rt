//! The bytes of what stands before the bodies.

ghost use Rattle.std.specs.Prelude.{◌≡◌};
ghost use Rattle.file_model.specs.Spelling.{node_text, field_text};
ghost use Rattle.patch_file.specs.Headers.{header_spelling};

use byteorder::{ByteOrder, LittleEndian};
use file_model::{Node, PatchField};

/// The header of a file of this version with so many nodes and patches.
#[tactic(auto, unfolding(file_model::specs::Numbers::number_text))]
pub fn header_bytes(version: u16, nodes: u32, patches: u32) -> [u8; 16]
    ensures { result ≡ header_spelling version nodes patches }
{
    let mut bytes = [0; 16];
    bytes[..4].copy_from_slice(b"BMTG");
    LittleEndian::write_u16(&mut bytes[4..], version);
    LittleEndian::write_u32(&mut bytes[8..], nodes);
    LittleEndian::write_u32(&mut bytes[12..], patches);
    bytes
}

/// A node.
#[tactic(auto, unfolding(file_model::specs::Spelling::node_text, file_model::specs::Spelling::point_text, file_model::specs::Numbers::signed_text, file_model::specs::Numbers::number_text))]
pub fn node_bytes(node: &Node) -> [u8; 20]
    ensures { result ≡ node_text node.now }
{
    let centre = node.ball.centre;
    let mut bytes = [0; 20];
    LittleEndian::write_i32(&mut bytes, centre.x);
    LittleEndian::write_i32(&mut bytes[4..], centre.y);
    LittleEndian::write_i32(&mut bytes[8..], centre.z);
    LittleEndian::write_u32(&mut bytes[12..], node.ball.radius);
    LittleEndian::write_u32(&mut bytes[16..], node.error);
    bytes
}

/// A patch field.
#[tactic(auto, unfolding(file_model::specs::Spelling::field_text, file_model::specs::Numbers::number_text))]
pub fn field_bytes(field: &PatchField) -> [u8; 12]
    ensures { result ≡ field_text field.now }
{
    let mut bytes = [0; 12];
    LittleEndian::write_u32(&mut bytes, field.tail);
    LittleEndian::write_u32(&mut bytes[4..], field.head);
    LittleEndian::write_u16(&mut bytes[8..], field.points);
    LittleEndian::write_u16(&mut bytes[10..], field.triangles);
    bytes
}
