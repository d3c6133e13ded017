//! The sections of an object (`loader.h`: `section_64`; `reloc.h`: `relocation_info`).

ghost use Rattle.std.specs.Prelude.{◌≡◌, ◌+◌, ◌*◌, ◌≤◌, ◌<◌, ◌^◌, None, false, length, All, IfOk, IfSome, if◌then◌else◌};
ghost use Rattle.std.specs.List.{position};
ghost use Rattle.mo_types.specs.Gives.{Gives};
ghost use Rattle.mo_types.specs.Whole.{is_zerofill};
ghost use Rattle.mo_types.specs.declared.cause.Rule.TheVariants as rule;
ghost use Rattle.mo_obj.specs.Commands.{IsFrame};
ghost use Rattle.mo_obj.specs.Each.{Each};
ghost use Rattle.mo_obj.specs.Faults.{IsObjFault};
ghost use Rattle.mo_obj.specs.Object as object;
ghost use Rattle.mo_obj.specs.Sections as sections;
ghost use Rattle.mo_obj.specs.Sections.{IsNumbered, IsRoomy};

use crate::commands::Frame;
use crate::names::name_text;
use mo_format::loader::{
    S_4BYTE_LITERALS, S_8BYTE_LITERALS, S_16BYTE_LITERALS, S_CSTRING_LITERALS,
    S_THREAD_LOCAL_ZEROFILL, S_ZEROFILL, SECTION_ATTRIBUTES, SECTION_TYPE,
};
use mo_format::{RelocationInfo, SectionHeader};
use mo_types::{
    Bytes, Items, ObjFault, OutOfMemory, RawReloc, RelocList, Rule, Section, SectionList,
};
use std::alloc::Global;

type HeaderList = Items<SectionHeader>;

#[tactic(auto, unfolding(crate::specs::Sections::header_at))]
fn header_at(bytes: &[u8], frame: Frame, i: usize) -> SectionHeader
    requires frame { IsFrame bytes.now frame }
    requires index { i < frame.count }
    ensures { result ≡ sections.header_at bytes.now frame i }
{
    SectionHeader::read(bytes, frame.headers + 80 * i)
}

#[tactic(auto, using(crate::proofs::TableLemmas::mappings), unfolding(crate::specs::Sections::headers_of))]
fn headers_of(alloc: Global, bytes: &[u8], frame: Frame) -> Result<HeaderList, OutOfMemory>
    requires { IsFrame bytes.now frame }
    ensures exact { IfOk result (λ headers. headers ≡ sections.headers_of bytes.now frame) }
    ensures count { IfOk result (λ headers. length headers ≡ frame.count) }
{
    let mut headers = Vec::with_capacity(alloc, frame.count)?;
    for i in 0..frame.count {
        headers.push(header_at(bytes, frame, i))?;
    }
    Ok(HeaderList::from_vec(headers))
}

fn is_zerofill_header(header: &SectionHeader) -> bool
    ensures { result ≡ is_zerofill (sections.type_of header.now) }
{
    let kind = header.flags & SECTION_TYPE;
    kind == S_ZEROFILL || kind == S_THREAD_LOCAL_ZEROFILL
}

fn is_outside(size: usize, header: &SectionHeader) -> bool
    ensures { result ≡ sections.is_outside size header.now }
{
    let contents = u128::from(header.offset) + u128::from(header.size);
    let addresses = u128::from(header.addr) + u128::from(header.size);
    !is_zerofill_header(header) && (size as u128) < contents || addresses >= 1 << 63
}

fn has_relocs_outside(size: usize, header: &SectionHeader) -> bool
    ensures { result ≡ sections.has_relocs_outside size header.now }
{
    (size as u64) < u64::from(header.reloff) + 8 * u64::from(header.nreloc)
}

// A rule that fails at the header with a number.
fn keep(rule: Rule, frame: Frame, found: Option<usize>) -> Result<(), ObjFault>
    requires { IfSome found (λ i. frame.headers + 80 * i < 2 ^ 64) }
    ensures exact { Gives IsObjFault result (sections.keeps_at rule frame found) }
    ensures kept { IfOk result (λ done. found ≡ None) }
{
    match found {
        Some(i) => Err(ObjFault::Malformed {
            place: (frame.headers + 80 * i) as u64,
            rule,
        }),
        None => Ok(()),
    }
}

fn first_outside(size: usize, headers: &[SectionHeader]) -> Option<usize>
    ensures value { result ≡ position (sections.is_outside size) headers.now }
    ensures within { IfSome result (λ i. i < length headers.now) }
{
    headers.iter().position(|header| is_outside(size, header))
}

fn first_with_relocs_outside(size: usize, headers: &[SectionHeader]) -> Option<usize>
    ensures value { result ≡ position (sections.has_relocs_outside size) headers.now }
    ensures within { IfSome result (λ i. i < length headers.now) }
{
    headers
        .iter()
        .position(|header| has_relocs_outside(size, header))
}

fn raw_of(info: RelocationInfo) -> RawReloc
    ensures { result ≡ sections.raw_of info }
{
    RawReloc {
        address: info.r_address,
        number: info.r_symbolnum,
        pcrel: info.r_pcrel,
        length: info.r_length,
        external: info.r_extern,
        kind: info.r_type,
    }
}

#[tactic(auto, unfolding(crate::specs::Sections::reloc_at))]
fn reloc_at(bytes: &[u8], header: &SectionHeader, i: usize) -> RawReloc
    requires within { sections.has_relocs_outside (length bytes.now) header.now ≡ false }
    requires index { i < header.now.nreloc }
    ensures exact { result ≡ sections.reloc_at bytes.now header.now i }
    ensures number { IsNumbered result }
{
    raw_of(RelocationInfo::read(bytes, header.reloff as usize + 8 * i))
}

#[tactic(auto, using(crate::proofs::TableLemmas::mappings, crate::proofs::TableLemmas::each), unfolding(crate::specs::Sections::relocs_of))]
fn relocs_of(alloc: Global, bytes: &[u8], header: &SectionHeader) -> Result<RelocList, OutOfMemory>
    requires { sections.has_relocs_outside (length bytes.now) header.now ≡ false }
    ensures exact { IfOk result (λ relocs. relocs ≡ sections.relocs_of bytes.now header.now) }
    ensures count { IfOk result (λ relocs. length relocs ≡ header.now.nreloc) }
    ensures numbers { IfOk result (Each IsNumbered) }
{
    let count = header.nreloc as usize;
    let mut relocs = Vec::with_capacity(alloc, count)?;
    for i in 0..count {
        relocs.push(reloc_at(bytes, header, i))?;
    }
    Ok(RelocList::from_vec(relocs))
}

fn contents_of(file: &Bytes, header: &SectionHeader) -> Result<Bytes, OutOfMemory>
    requires { sections.is_outside (length file.now) header.now ≡ false }
    ensures exact { IfOk result (λ contents. contents ≡ sections.contents_of file.now header.now) }
    ensures sized { IfOk result (λ contents. length contents ≡ (if is_zerofill (sections.type_of header.now) then 0 else header.now.size)) }
{
    if is_zerofill_header(header) {
        return Ok(Bytes::new());
    }
    file.part(header.offset as usize, header.size as usize)
}

fn file_offset(header: &SectionHeader) -> u64
    ensures exact { result ≡ header.now.offset }
    ensures room { header.now.size < 2 ^ 63 → result + header.now.size < 2 ^ 64 }
{
    u64::from(header.offset)
}

fn reloc_offset(bytes: &[u8], header: &SectionHeader) -> u64
    requires { sections.has_relocs_outside (length bytes.now) header.now ≡ false }
    ensures exact { result ≡ header.now.reloff }
    ensures room { result + 8 * header.now.nreloc < 2 ^ 64 }
{
    u64::from(header.reloff)
}

// The section of a header, with the alignment 0.
fn unaligned(alloc: Global, file: &Bytes, header: &SectionHeader) -> Result<Section, OutOfMemory>
    requires contents { sections.is_outside (length file.now) header.now ≡ false }
    requires relocs { sections.has_relocs_outside (length file.now) header.now ≡ false }
    ensures exact { IfOk result (λ section. section ≡ sections.aligned file.now header.now 0) }
    ensures roomy { IfOk result IsRoomy }
{
    Ok(Section {
        segment: Bytes::from_slice(alloc, name_text(&header.segname))?,
        name: Bytes::from_slice(alloc, name_text(&header.sectname))?,
        address: header.addr,
        size: header.size,
        align: 0,
        kind: (header.flags & SECTION_TYPE) as u8,
        attributes: header.flags & SECTION_ATTRIBUTES,
        file_offset: file_offset(header),
        reloc_offset: reloc_offset(file.as_slice(), header),
        bytes: contents_of(file, header)?,
        relocs: relocs_of(alloc, file.as_slice(), header)?,
    })
}

#[tactic(auto, unfolding(crate::specs::Sections::section_of))]
fn section_of(alloc: Global, file: &Bytes, header: &SectionHeader) -> Result<Section, OutOfMemory>
    requires contents { sections.is_outside (length file.now) header.now ≡ false }
    requires relocs { sections.has_relocs_outside (length file.now) header.now ≡ false }
    ensures exact { IfOk result (λ section. section ≡ sections.section_of file.now header.now) }
    ensures roomy { IfOk result IsRoomy }
{
    let mut section = unaligned(alloc, file, header)?;
    if !section.is_dropped() {
        section.align = header.align.min(255) as u8;
    }
    Ok(section)
}

#[tactic(auto, using(crate::proofs::TableLemmas::takings, crate::proofs::TableLemmas::each), unfolding(crate::specs::Sections::sections_of))]
fn sections_of(
    alloc: Global,
    file: &Bytes,
    headers: &[SectionHeader],
) -> Result<SectionList, OutOfMemory>
    requires contents { All (λ header. sections.is_outside (length file.now) header ≡ false) headers.now }
    requires relocs { All (λ header. sections.has_relocs_outside (length file.now) header ≡ false) headers.now }
    ensures exact { IfOk result (λ list. list ≡ sections.sections_of file.now headers.now) }
    ensures count { IfOk result (λ list. length list ≡ length headers.now) }
    ensures roomy { IfOk result (Each IsRoomy) }
{
    let mut list = Vec::with_capacity(alloc, headers.len())?;
    for header in headers {
        list.push(section_of(alloc, file, header)?)?;
    }
    Ok(SectionList::from_vec(list))
}

// Whether a section has the unwind entries of functions, to be taken apart.
fn has_entries(header: &SectionHeader) -> bool {
    header.segname.starts_with(b"__LD\0") && header.sectname == *b"__compact_unwind"
}

// How many bytes of the file are taken apart for a section: those of its relocations, strings, literals and unwind
// entries.
fn parted_bytes(header: &SectionHeader) -> u64 {
    let contents = match header.flags & SECTION_TYPE {
        S_CSTRING_LITERALS | S_4BYTE_LITERALS | S_8BYTE_LITERALS | S_16BYTE_LITERALS => header.size,
        _ if has_entries(header) => header.size,
        _ => 0,
    };
    contents.saturating_add(8 * u64::from(header.nreloc))
}

// Whether sections share what is taken apart for each of them so often that it is over a mebibyte more than the file.
fn share_too_much(size: usize, headers: &[SectionHeader]) -> bool {
    let mut parted = 0u64;
    for header in headers {
        parted = parted.saturating_add(parted_bytes(header));
    }
    parted.saturating_sub(size as u64) > 1 << 20
}

/// The sections, where they and their relocations lie within the file. Sections that share too much want more memory
/// than a reader may take, which is told as want of memory.
#[tactic(auto, using(crate::proofs::SectionLemmas::checks), unfolding(crate::specs::Object::checked_sections))]
pub fn checked_sections(alloc: Global, file: &Bytes, frame: Frame) -> Result<SectionList, ObjFault>
    requires { IsFrame file.now frame }
    ensures exact { Gives IsObjFault result (object.checked_sections file.now frame) }
    ensures roomy { IfOk result (Each IsRoomy) }
    ensures few { IfOk result (λ list. length list ≡ frame.count) }
{
    let headers = headers_of(alloc, file.as_slice(), frame)?;
    let size = file.len();
    keep(
        Rule::Section,
        frame,
        first_outside(size, headers.as_slice()),
    )?;
    keep(
        Rule::Relocations,
        frame,
        first_with_relocs_outside(size, headers.as_slice()),
    )?;
    if share_too_much(size, headers.as_slice()) {
        return Err(ObjFault::OutOfMemory);
    }
    Ok(sections_of(alloc, file, headers.as_slice())?)
}

fn has_broken_literals(section: &Section) -> bool
    ensures { result ≡ sections.has_broken_literals section.now }
{
    if section.is_strings() {
        let strings = section.bytes.as_slice();
        return strings.last().is_some_and(|last| *last != 0);
    }
    match section.literal_size() {
        Some(size) => section.size % size != 0,
        None => false,
    }
}

fn first_with_broken_literals(list: &[Section]) -> Option<usize>
    ensures value { result ≡ position sections.has_broken_literals list.now }
    ensures within { IfSome result (λ i. i < length list.now) }
{
    list.iter().position(has_broken_literals)
}

/// Strings end in NUL, and literals are whole.
#[tactic(auto, using(crate::proofs::SectionLemmas::checks))]
pub fn keep_literals(frame: Frame, list: &[Section]) -> Result<(), ObjFault>
    requires few { length list.now ≡ frame.count }
    requires within { frame.headers + 80 * frame.count < 2 ^ 64 }
    ensures exact { Gives IsObjFault result (sections.each_keeps rule.Literals frame sections.has_broken_literals list.now) }
    ensures kept { IfOk result (λ done. All (λ section. sections.has_broken_literals section ≡ false) list.now) }
{
    keep(Rule::Literals, frame, first_with_broken_literals(list))
}
