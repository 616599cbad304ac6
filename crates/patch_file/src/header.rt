//! The first 16 bytes of a patch file.

ghost use Rattle.std.specs.Prelude.{◌≡◌, ℕ};
ghost use Rattle.file_model.specs.Reading.{header_in};
ghost use Rattle.file_model.specs.Rules.{is_version, is_node_count, is_patch_count};
ghost use Rattle.patch_file.specs.Seen.{GivesBytes};
ghost use Rattle.patch_file.specs.Headers.{header_seen};

use byteorder::{ByteOrder, LittleEndian};
use file_model::{FileFault, MOST_NODES, MOST_PATCHES};

/// What the header says.
#[derive(Clone, Copy)]
pub struct Header {
    pub version: u16,
    pub nodes: u32,
    pub patches: u32,
}

/// The header in the file's first 16 bytes, or in all where there are fewer.
#[tactic(auto, unfolding(file_model::specs::Reading::header_in, file_model::specs::Numbers::number_in))]
pub fn header_of(bytes: &[u8]) -> Result<Header, FileFault>
    ensures { GivesBytes header_seen result (header_in bytes.now) }
{
    let truncated = FileFault::Truncated(bytes.len() as u64);
    if bytes.len() < 4 {
        return Err(truncated);
    }
    if !bytes.starts_with(b"BMTG") {
        return Err(FileFault::Magic);
    }
    if bytes.len() < 6 {
        return Err(truncated);
    }
    let version = LittleEndian::read_u16(&bytes[4..]);
    if !is_version(version) {
        return Err(FileFault::Version(version));
    }
    if bytes.len() < 8 {
        return Err(truncated);
    }
    if LittleEndian::read_u16(&bytes[6..]) != 0 {
        return Err(FileFault::NotZero);
    }
    if bytes.len() < 12 {
        return Err(truncated);
    }
    let nodes = LittleEndian::read_u32(&bytes[8..]);
    if !is_node_count(nodes) {
        return Err(FileFault::NodeCount(nodes));
    }
    if bytes.len() < 16 {
        return Err(truncated);
    }
    let patches = LittleEndian::read_u32(&bytes[12..]);
    if !is_patch_count(patches) {
        return Err(FileFault::PatchCount(patches));
    }
    Ok(Header {
        version,
        nodes,
        patches,
    })
}

fn is_version(version: u16) -> bool
    ensures { result ≡ is_version version }
{
    version == 1 || version == 2
}

fn is_node_count(nodes: u32) -> bool
    ensures { result ≡ is_node_count nodes }
{
    2 <= nodes && nodes <= MOST_NODES
}

fn is_patch_count(patches: u32) -> bool
    ensures { result ≡ is_patch_count patches }
{
    1 <= patches && patches <= MOST_PATCHES
}
