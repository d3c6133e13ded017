//! The signature that stands in an image.

ghost use Rattle.std.specs.Prelude.{◌≡◌, ◌+◌, ◌<◌, ◌≤◌, ◌^◌, ◌↔◌, IsTrue, IfSome, MatchOption, length};
ghost use Rattle.image_read.specs.Commands as commands;
ghost use Rattle.image_read.specs.Commands.{IsFitting};
ghost use Rattle.sign_adhoc.specs.Signature as signature;
ghost use Rattle.sign_adhoc.specs.Standing as standing;
ghost use Rattle.sign_adhoc.specs.Standing.{AreZeros, HasEnds, IsSignature, IsStanding};
ghost use Rattle.sign_adhoc.specs.inner.Told as told;

use crate::blob::{DIRECTORY_AT, blob_size, directory, directory_entry, padded_size, super_blob};
use image_format::{BlobIndex, CodeDirectory, SuperBlob};
use image_read::{cmd, cmdsize, fits, ncmds};
use mo_format::LinkeditDataCommand;
use mo_format::loader::LC_CODE_SIGNATURE;

/// A signature in an image, whatever its hashes are.
#[derive(Clone, Copy, Debug, PartialEq, Eq)]
pub struct Standing {
    /// Where it begins in the file.
    pub from: usize,
    /// How many bytes its command names.
    pub size: usize,
    /// How many bytes the identifier has, without the NUL.
    pub identifier: usize,
    /// How many bytes of the file the segment of the code has.
    pub text_size: u64,
    /// Whether the image is a program.
    pub main: bool,
}

#[tactic(auto, unfolding(crate::specs::Standing::signature_command_at, image_read::specs::Commands::cmdsize))]
fn signature_command_at(image: &[u8], at: usize) -> Option<usize>
    requires header { at + 8 ≤ length image.now }
    requires whole { at + commands.cmdsize image.now at ≤ length image.now }
    ensures value { result ≡ standing.signature_command_at image.now at }
    ensures within { IfSome result (λ found. found + 16 ≤ length image.now) }
{
    if cmd(image, at) == LC_CODE_SIGNATURE && cmdsize(image, at) >= LinkeditDataCommand::SIZE {
        return Some(at);
    }
    None
}

// The place of the first command of a signature.
#[tactic(auto, using(image_read::proofs::CommandLemmas::walks, image_read::proofs::CommandLemmas::searches), unfolding(crate::specs::Standing::first_command))]
fn first_command(image: &[u8]) -> Option<usize>
    requires { IsFitting image.now }
    ensures value { result ≡ standing.first_command image.now }
    ensures within { IfSome result (λ at. at + 16 ≤ length image.now) }
{
    let mut at = 32;
    for _number in 0..ncmds(image) {
        if let Some(found) = signature_command_at(image, at) {
            return Some(found);
        }
        at += cmdsize(image, at);
    }
    None
}

#[tactic(auto, unfolding(crate::specs::Standing::signature_command))]
fn signature_command(image: &[u8]) -> Option<usize>
    ensures value { result ≡ standing.signature_command image.now }
    ensures within { IfSome result (λ at. at + 16 ≤ length image.now) }
{
    if !fits(image) {
        return None;
    }
    first_command(image)
}

// What the code directory tells of a signature that begins at a place and has so many bytes.
fn told(image: &[u8], from: usize, size: usize) -> Option<Standing>
    requires from { from < 2 ^ 32 }
    requires size { size < 2 ^ 32 }
    ensures value { result ≡ told.told image.now from size }
    ensures few { IfSome result (λ s. s.identifier < 2 ^ 32) }
    ensures within { IfSome result (λ s. (108 < s.size) × (s.from + s.size ≤ length image.now)) }
    ensures same { IfSome result (λ s. (s.from ≡ from) × (s.size ≡ size)) }
{
    if size <= DIRECTORY_AT + CodeDirectory::SIZE || image.len() < from + size {
        return None;
    }
    let directory = CodeDirectory::read(image, from + DIRECTORY_AT);
    Some(Standing {
        from,
        size,
        identifier: (directory.hash_offset as usize).saturating_sub(CodeDirectory::SIZE + 1),
        text_size: directory.exec_seg_limit,
        main: directory.exec_seg_flags == 1,
    })
}

fn has_blob(image: &[u8], s: Standing) -> bool
    requires within { s.from + 108 ≤ length image.now }
    requires few { signature.blob_size s.identifier s.from < 2 ^ 32 }
    ensures { IsTrue result ↔ (standing.blob_of image.now s ≡ signature.super_blob s.identifier s.from) }
{
    SuperBlob::read(image, s.from) == super_blob(s.identifier, s.from)
}

fn has_entry(image: &[u8], s: Standing) -> bool
    requires within { s.from + 108 ≤ length image.now }
    ensures { IsTrue result ↔ (standing.entry_of image.now s ≡ signature.directory_entry) }
{
    BlobIndex::read(image, s.from + SuperBlob::SIZE) == directory_entry()
}

fn has_directory(image: &[u8], s: Standing) -> bool
    requires within { s.from + 108 ≤ length image.now }
    requires few { signature.blob_size s.identifier s.from < 2 ^ 32 }
    requires from { s.from < 2 ^ 32 }
    ensures { IsTrue result ↔ (standing.directory_of image.now s ≡ signature.directory s.identifier s.from s.text_size s.main) }
{
    CodeDirectory::read(image, s.from + DIRECTORY_AT)
        == directory(s.identifier, s.from, s.text_size, s.main)
}

fn are_zeros(bytes: &[u8]) -> bool
    ensures { IsTrue result ↔ AreZeros bytes.now }
{
    bytes.iter().all(|byte| *byte == 0)
}

#[tactic(auto, using(crate::proofs::PageLemmas::sizes))]
fn has_ends(image: &[u8], s: Standing) -> bool
    requires within { s.from + s.size ≤ length image.now }
    requires room { signature.blob_size s.identifier s.from ≤ s.size }
    requires few { s.identifier < 2 ^ 32 }
    ensures { IsTrue result ↔ HasEnds image.now s }
{
    let nul = s.from + DIRECTORY_AT + CodeDirectory::SIZE + s.identifier;
    let end = s.from + blob_size(s.identifier, s.from);
    image[nul] == 0 && are_zeros(&image[end..s.from + s.size])
}

#[tactic(auto, using(crate::proofs::PageLemmas::sizes))]
fn has_size(s: Standing) -> bool
    requires few { s.identifier < 2 ^ 32 }
    ensures exact { IsTrue result ↔ (s.size ≡ signature.signature_size s.identifier s.from) }
    ensures room { IsTrue result → signature.blob_size s.identifier s.from ≤ s.size }
{
    s.size == padded_size(s.identifier, s.from)
}

fn stands(image: &[u8], s: Standing) -> bool
    requires within { s.from + s.size ≤ length image.now }
    requires head { 108 < s.size }
    requires few { (s.from < 2 ^ 32) × (s.size < 2 ^ 32) × (s.identifier < 2 ^ 32) }
    ensures { IsTrue result ↔ IsStanding image.now s }
{
    if !has_size(s) {
        return false;
    }
    has_blob(image, s) && has_entry(image, s) && has_directory(image, s) && has_ends(image, s)
}

/// The signature of an image, where one stands.
pub(crate) fn signature_of(image: &[u8]) -> Option<Standing>
    ensures found { MatchOption result ((s : Standing) → IsSignature image.now s → ⊥) (IsSignature image.now) }
    ensures few { IfSome result (λ s. (s.from < 2 ^ 32) × (s.size < 2 ^ 32) × (s.identifier < 2 ^ 32)) }
{
    let at = signature_command(image)?;
    let command = LinkeditDataCommand::read(image, at);
    let told = told(image, command.dataoff as usize, command.datasize as usize)?;
    if stands(image, told) {
        Some(told)
    } else {
        None
    }
}
