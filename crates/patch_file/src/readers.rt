//! Reading a patch file: what stands before the bodies, a body, and the file's end.

ghost use Rattle.std.specs.Prelude.{◌≡◌, ◌+◌, ◌*◌, ◌^◌, ◌<◌, ◌≤◌, length, take, drop, IfOk, IfErr, IfSome, OnOk, Ok, slice_get};
ghost use Rattle.file_model.specs.Answers.{Gives, IsNotFault, IsNotMemory, IsNotReadFault};
ghost use Rattle.file_model.specs.BodyFaults.{RefusesBody};
ghost use Rattle.file_model.specs.declared.refusals.ReadRefusal.TheVariants.{ReadFault};
ghost use Rattle.file_model.specs.Lists.{bodies_offset, body_size};
ghost use Rattle.file_model.specs.Reading.{header_in, fields_size, fields_in, index_in, body_offset, body_of_file, end_in};
ghost use Rattle.view_outside.specs.Files.{HasFile, TellsBytes, file_bytes};
ghost use Rattle.view_outside.specs.OnlyRead.{OnlyIf, OnlyRead};
ghost use Rattle.view_outside.specs.Taken.{taken_after, RisesBelow, RisesAtMost};
ghost use Rattle.patch_file.specs.Headers.{header_seen, IsHeader};
ghost use Rattle.patch_file.specs.BodyRead.{IsBodyOf};
ghost use Rattle.patch_file.specs.Taking.{index_size};

use crate::fields::{fields_of, nodes_of};
use crate::full_reads::read_full;
use crate::header::{Header, header_of};
use crate::index::Index;
use file_model::{FileFault, ReadRefusal};
use patch_body::Body;
use std::alloc::Global;
use view_outside::Store;

/// Reads the header, and then the nodes and the patch fields in one piece.
///
/// `File` is the first fault of what was read, and `ReadFault` a failure of the store.
pub fn read_index<S: Store>(alloc: Global, store: &mut S, file: u32) -> Result<Index, ReadRefusal>
    requires { HasFile (S.files store.old) file }
    ensures exact { IfSome (file_bytes (S.files store.old) file)
        (λ bytes. Gives (λ index. index) result (index_in bytes)) }
    ensures store { OnlyRead ReadFault (S.files store.old) (S.files store.new)
        (S.faults store.old) (S.faults store.new) result }
    ensures taken { IfOk result
        (λ index. S.taken store.new ≡ taken_after (S.taken store.old) (bodies_offset index)) }
    ensures cut { IfErr result
        (OnlyIf ReadFault
        (RisesBelow (S.taken store.old) (S.taken store.new)
        (index_size (file_bytes (S.files store.old) file)))) }
{
    let header = read_header(store, file)?;
    read_fields(alloc, header, store, file)
}

fn read_header<S: Store>(store: &mut S, file: u32) -> Result<Header, ReadRefusal>
    requires { HasFile (S.files store.old) file }
    ensures exact { IfSome (file_bytes (S.files store.old) file)
        (λ bytes. Gives header_seen result (header_in (take 16 bytes))) }
    ensures rules { IfOk result (λ header. IsHeader (header_seen header)) }
    ensures store { OnlyRead ReadFault (S.files store.old) (S.files store.new)
        (S.faults store.old) (S.faults store.new) result }
    ensures taken { IfOk result (λ _. S.taken store.new ≡ taken_after (S.taken store.old) 16) }
    ensures cut { IfErr result
        (OnlyIf ReadFault (RisesBelow (S.taken store.old) (S.taken store.new) 16)) }
{
    let mut bytes = [0; 16];
    let Ok(n) = read_full(store, file, 0, &mut bytes) else {
        return Err(ReadRefusal::ReadFault);
    };
    match header_of(&bytes[..n]) {
        Ok(header) => Ok(header),
        Err(fault) => Err(ReadRefusal::File(fault)),
    }
}

/// Reads the nodes and the patch fields that follow this header.
fn read_fields<S: Store>(
    alloc: Global,
    header: Header,
    store: &mut S,
    file: u32,
) -> Result<Index, ReadRefusal>
    requires rules { IsHeader (header_seen header) }
    requires file { HasFile (S.files store.old) file }
    ensures exact { IfSome (file_bytes (S.files store.old) file)
        (λ bytes.
        Gives (λ index. index) result
        (fields_in (header_seen header)
        (take (fields_size (header_seen header)) (drop 16 bytes)))) }
    ensures store { OnlyRead ReadFault (S.files store.old) (S.files store.new)
        (S.faults store.old) (S.faults store.new) result }
    ensures size { IfOk result
        (λ index. bodies_offset index ≡ 16 + fields_size (header_seen header)) }
    ensures taken { IfOk result (λ _. S.taken store.new
        ≡ taken_after (S.taken store.old) (fields_size (header_seen header))) }
    ensures cut { IfErr result (OnlyIf ReadFault
        (RisesBelow (S.taken store.old) (S.taken store.new) (fields_size (header_seen header)))) }
{
    let size = 20 * u64::from(header.nodes) + 12 * u64::from(header.patches);
    let bytes = read_piece(alloc, store, file, 16, size)?;
    index_of(alloc, header, &bytes)
}

/// The index with the nodes and the patch fields in these bytes, which follow this header.
#[tactic(auto, unfolding(file_model::specs::Reading::fields_in))]
fn index_of(alloc: Global, header: Header, bytes: &[u8]) -> Result<Index, ReadRefusal>
    requires rules { IsHeader (header_seen header) }
    requires size { length bytes.now ≤ fields_size (header_seen header) }
    ensures exact { Gives (λ index. index) result (fields_in (header_seen header) bytes.now) }
    ensures alone { IfErr result IsNotReadFault }
    ensures size { IfOk result
        (λ index. bodies_offset index ≡ 16 + fields_size (header_seen header)) }
    ensures read { IfOk result (λ _. length bytes.now ≡ fields_size (header_seen header)) }
{
    let end = 16 + bytes.len() as u64;
    let (nodes, rest) = nodes_of(alloc, header.nodes, end, bytes)?;
    let (fields, _) = fields_of(alloc, header.nodes, header.patches, end, rest)?;
    Ok(Index::from_lists(alloc, header.version, nodes, fields)?)
}

/// Reads the body of this patch, and no byte outside it.
///
/// `File` is the first fault of what was read, and `ReadFault` a failure of the store.
pub fn read_body<S: Store>(
    alloc: Global,
    index: &Index,
    store: &mut S,
    file: u32,
    patch: u32,
) -> Result<Body, ReadRefusal>
    requires patch { patch < length index.now.fields }
    requires file { HasFile (S.files store.old) file }
    ensures exact { IfSome (file_bytes (S.files store.old) file) (λ bytes.
        IfSome (slice_get index.now.fields patch) (λ field. Gives (λ body. body.lists) result
        (body_of_file index.now.version patch field (body_offset index.now patch) bytes))) }
    ensures body { IfOk result (λ body. IsBodyOf index.now patch body) }
    ensures fault { IfErr result (RefusesBody patch) }
    ensures store { OnlyRead ReadFault (S.files store.old) (S.files store.new)
        (S.faults store.old) (S.faults store.new) result }
    ensures taken { IfOk result
        (λ body. S.taken store.new ≡ taken_after (S.taken store.old) (length body.bytes)) }
    ensures most { IfSome (slice_get index.now.fields patch) (λ field.
        RisesAtMost (S.taken store.old) (S.taken store.new) (body_size index.now.version field)) }
    ensures cut { IfErr result
        (OnlyIf ReadFault
        (IfSome (slice_get index.now.fields patch)
        (λ field.
        RisesBelow (S.taken store.old) (S.taken store.new)
        (body_size index.now.version field)))) }
{
    let version = index.version();
    let field = index.patch(patch);
    let offset = index.body_offset(patch);
    let bytes = read_piece(alloc, store, file, offset, index.body_size(patch))?;
    match Body::from_bytes(version, patch, field, offset, bytes) {
        Ok(body) => Ok(body),
        Err(fault) => Err(ReadRefusal::File(fault)),
    }
}

/// Reads so many bytes from this offset, or as many as the file has.
fn read_piece<S: Store>(
    alloc: Global,
    store: &mut S,
    file: u32,
    offset: u64,
    size: u64,
) -> Result<Vec<u8>, ReadRefusal>
    requires file { HasFile (S.files store.old) file }
    requires room { offset + size < 2 ^ 64 }
    ensures exact { IfSome (file_bytes (S.files store.old) file)
        (λ bytes. Gives (λ piece. piece.items) result (Ok (take size (drop offset bytes)))) }
    ensures short { IfOk result (λ piece. length piece.items ≤ size) }
    ensures plain { IfErr result IsNotFault }
    ensures store { OnlyRead ReadFault (S.files store.old) (S.files store.new)
        (S.faults store.old) (S.faults store.new) result }
    ensures taken { IfOk result
        (λ piece. S.taken store.new ≡ taken_after (S.taken store.old) (length piece.items)) }
    ensures most { RisesAtMost (S.taken store.old) (S.taken store.new) size }
    ensures cut { IfErr result
        (OnlyIf ReadFault (RisesBelow (S.taken store.old) (S.taken store.new) size)) }
{
    let mut bytes = vec![in alloc; 0; size as usize]?;
    let Ok(n) = read_full(store, file, offset, &mut bytes) else {
        return Err(ReadRefusal::ReadFault);
    };
    bytes.truncate(n);
    Ok(bytes)
}

/// Looks for a byte after the last body.
///
/// `File` is a byte there, and `ReadFault` a failure of the store.
#[tactic(auto, unfolding(file_model::specs::Reading::end_in))]
pub fn read_end<S: Store>(index: &Index, store: &mut S, file: u32) -> Result<(), ReadRefusal>
    requires { HasFile (S.files store.old) file }
    ensures exact { IfSome (file_bytes (S.files store.old) file)
        (λ bytes. Gives (λ _. tt) result (end_in index.now bytes)) }
    ensures told { IfOk result (λ _. TellsBytes (S.files store.old) file) }
    ensures memory { IfErr result IsNotMemory }
    ensures store { OnlyRead ReadFault (S.files store.old) (S.files store.new)
        (S.faults store.old) (S.faults store.new) result }
    ensures taken { OnOk result (S.taken store.new ≡ S.taken store.old) }
    ensures cut { IfErr result (OnlyIf ReadFault (S.taken store.new ≡ S.taken store.old)) }
    ensures most { RisesAtMost (S.taken store.old) (S.taken store.new) 1 }
{
    let length = index.file_length();
    let mut byte = [0; 1];
    match store.read_at(file, length, &mut byte) {
        Ok(0) => Ok(()),
        Ok(_) => Err(ReadRefusal::File(FileFault::Trailing(length + 1))),
        Err(_) => Err(ReadRefusal::ReadFault),
    }
}
