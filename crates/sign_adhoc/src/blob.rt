//! The bytes of a signature.

ghost use Rattle.std.specs.Prelude.{◌≡◌, ◌+◌, ◌<◌, ◌≤◌, ◌^◌, ◌++◌, length, IfOk, OnOk};
ghost use Rattle.sign_adhoc.specs.Signature as signature;

use crate::pages::{HASH_SIZE, page_count};
use image_format::cs_blobs::{
    CS_ADHOC, CS_EXECSEG_MAIN_BINARY, CS_HASHTYPE_SHA256, CS_LINKER_SIGNED, CS_SHA256_LEN,
    CS_SUPPORTSEXECSEG, CSMAGIC_CODEDIRECTORY, CSMAGIC_EMBEDDED_SIGNATURE, CSSLOT_CODEDIRECTORY,
};
use image_format::{BlobIndex, CodeDirectory, SuperBlob};
use mo_types::OutOfMemory;
use std::alloc::Global;

// Where the code directory stands, behind the super blob and its entry.
pub(crate) const DIRECTORY_AT: usize = SuperBlob::SIZE + BlobIndex::SIZE;

// Where the hashes stand in the code directory.
pub(crate) fn hashes_begin(identifier: usize) -> usize
    requires { identifier < 2 ^ 62 }
    ensures { result ≡ signature.hashes_begin identifier }
{
    CodeDirectory::SIZE + identifier + 1
}

/// How many bytes a signature has, without the zeros.
#[tactic(auto, using(crate::proofs::PageLemmas::paging), unfolding(crate::specs::Signature::blob_size))]
pub(crate) fn blob_size(identifier: usize, limit: usize) -> usize
    requires { identifier < 2 ^ 62 }
    ensures { result ≡ signature.blob_size identifier limit }
{
    DIRECTORY_AT + hashes_begin(identifier) + HASH_SIZE * page_count(limit)
}

#[tactic(auto, using(crate::proofs::PageLemmas::sizes))]
pub(crate) fn super_blob(identifier: usize, limit: usize) -> SuperBlob
    requires { signature.blob_size identifier limit < 2 ^ 32 }
    ensures { result ≡ signature.super_blob identifier limit }
{
    SuperBlob {
        magic: CSMAGIC_EMBEDDED_SIGNATURE,
        length: blob_size(identifier, limit) as u32,
        count: 1,
    }
}

pub(crate) fn directory_entry() -> BlobIndex
    ensures { result ≡ signature.directory_entry }
{
    BlobIndex {
        type_: CSSLOT_CODEDIRECTORY,
        offset: DIRECTORY_AT as u32,
    }
}

#[tactic(auto, using(crate::proofs::PageLemmas::sizes))]
pub(crate) fn directory(
    identifier: usize,
    limit: usize,
    text_size: u64,
    main: bool,
) -> CodeDirectory
    requires size { signature.blob_size identifier limit < 2 ^ 32 }
    requires limit { limit < 2 ^ 32 }
    ensures { result ≡ signature.directory identifier limit text_size main }
{
    let hash_offset = hashes_begin(identifier);
    let pages = page_count(limit);
    CodeDirectory {
        magic: CSMAGIC_CODEDIRECTORY,
        length: (hash_offset + HASH_SIZE * pages) as u32,
        version: CS_SUPPORTSEXECSEG,
        flags: CS_ADHOC + CS_LINKER_SIGNED,
        hash_offset: hash_offset as u32,
        ident_offset: CodeDirectory::SIZE as u32,
        n_special_slots: 0,
        n_code_slots: pages as u32,
        code_limit: limit as u32,
        hash_size: CS_SHA256_LEN,
        hash_type: CS_HASHTYPE_SHA256,
        platform: 0,
        page_size: 12,
        spare2: 0,
        scatter_offset: 0,
        team_offset: 0,
        spare3: 0,
        code_limit64: 0,
        exec_seg_base: 0,
        exec_seg_limit: text_size,
        exec_seg_flags: if main { CS_EXECSEG_MAIN_BINARY } else { 0 },
    }
}

#[tactic(auto, unfolding(crate::specs::Signature::head))]
fn put_head(
    out: &mut Vec<u8>,
    identifier: usize,
    limit: usize,
    text_size: u64,
    main: bool,
) -> Result<(), OutOfMemory>
    requires size { signature.blob_size identifier limit < 2 ^ 32 }
    requires limit { limit < 2 ^ 32 }
    ensures { OnOk result (out.new.items ≡ out.old.items ++ signature.head identifier limit text_size main) }
{
    super_blob(identifier, limit).write(out)?;
    directory_entry().write(out)?;
    directory(identifier, limit, text_size, main).write(out)?;
    Ok(())
}

/// The signature of an image of `limit` bytes whose pages have these hashes, as `sign` answers it.
#[tactic(auto, using(crate::proofs::PageLemmas::sizes), unfolding(crate::specs::Signature::with_hashes, crate::specs::Pages::joined))]
pub fn sign_hashes(
    alloc: Global,
    limit: usize,
    hashes: &[[u8; 32]],
    identifier: &[u8],
    text_size: u64,
    main: bool,
) -> Result<Vec<u8>, OutOfMemory>
    requires size { signature.blob_size (length identifier.now) limit < 2 ^ 32 }
    requires limit { limit < 2 ^ 32 }
    ensures { IfOk result (λ bytes. bytes.items ≡ signature.with_hashes limit hashes.now identifier.now text_size main) }
{
    let mut out = Vec::with_capacity(alloc, blob_size(identifier.len(), limit))?;
    put_head(&mut out, identifier.len(), limit, text_size, main)?;
    out.extend_from_slice(identifier)?;
    out.push(0)?;
    out.extend_from_slice(hashes.as_flattened())?;
    Ok(out)
}

/// How many bytes a signature has with its zeros.
#[tactic(auto, using(crate::proofs::PageLemmas::padding), unfolding(crate::specs::Signature::signature_size, mo_bytes::specs::Rounding::least_multiple))]
pub(crate) fn padded_size(identifier: usize, limit: usize) -> usize
    requires { identifier < 2 ^ 62 }
    ensures { result ≡ signature.signature_size identifier limit }
{
    (blob_size(identifier, limit) + 15) / 16 * 16
}

/// How many bytes the signature of an image has that begins at a place of the file, with its zeros.
#[tactic(auto, using(crate::proofs::PageLemmas::sizes))]
pub fn signature_size(identifier: &[u8], signature_at: u64) -> u64
    requires { length identifier.now < 2 ^ 62 }
    ensures exact { result ≡ signature.signature_size (length identifier.now) signature_at }
    ensures room { signature.blob_size (length identifier.now) signature_at ≤ result }
{
    padded_size(identifier.len(), signature_at as usize) as u64
}
