//! The header and the commands of an object.

ghost use Rattle.std.specs.Prelude.{◌≡◌, ◌≤◌, ◌<◌, ◌*◌, ◌+◌, ◌-◌, ◌^◌, ◌++◌, OnOk, length, replicate};
ghost use Rattle.link_gen.specs.Generated as made;

use mo_format::loader::{
    CPU_SUBTYPE_ARM64_ALL, CPU_TYPE_ARM64, LC_SEGMENT_64, LC_SYMTAB, MH_MAGIC_64, MH_OBJECT,
    MH_SUBSECTIONS_VIA_SYMBOLS, S_ATTR_PURE_INSTRUCTIONS, S_ATTR_SOME_INSTRUCTIONS,
    VM_PROT_EXECUTE, VM_PROT_READ, VM_PROT_WRITE,
};
use mo_format::{MachHeader, SectionHeader, SegmentCommand, SymtabCommand};
use std::alloc::AllocError;

/// The bytes of both commands: those of a segment with one section, and of a symbol table.
pub const COMMANDS_SIZE: u32 = 176;

/// Where the section's contents stand in the file: behind the header and the commands.
pub const TEXT_PLACE: u32 = 208;

/// How many bytes the parts of an object have, and how many relocations and symbols there are.
#[derive(Clone, Copy, Debug, PartialEq, Eq)]
pub struct Places {
    /// The bytes of the section.
    pub text_size: u32,
    pub relocations: u32,
    pub symbols: u32,
    /// The bytes of the strings.
    pub strings_size: u32,
}

const HEADER: MachHeader = MachHeader {
    magic: MH_MAGIC_64,
    cputype: CPU_TYPE_ARM64,
    cpusubtype: CPU_SUBTYPE_ARM64_ALL,
    filetype: MH_OBJECT,
    ncmds: 2,
    sizeofcmds: COMMANDS_SIZE,
    flags: MH_SUBSECTIONS_VIA_SYMBOLS,
    reserved: 0,
};

impl Places {
    /// Where the relocations stand in the file.
    #[tactic(auto, unfolding(mo_bytes::specs::Rounding::least_multiple))]
    pub fn relocation_place(self) -> u32
        requires { made.AreFew self }
        ensures place { result ≡ made.relocation_place self }
        ensures behind { 208 + self.text_size ≤ result }
        ensures near { result < 216 + self.text_size }
    {
        (TEXT_PLACE + self.text_size + 7) / 8 * 8
    }

    fn symbol_place(self) -> u32
        requires { made.AreFew self }
        ensures place { result ≡ made.symbol_place self }
        ensures low { result ≤ 216 + self.text_size + 8 * self.relocations }
    {
        self.relocation_place() + 8 * self.relocations
    }

    fn string_place(self) -> u32
        requires { made.AreFew self }
        ensures place { result ≡ made.string_place self }
        ensures low { result ≤ 216 + self.text_size + 8 * self.relocations + 16 * self.symbols }
    {
        self.symbol_place() + 16 * self.symbols
    }

    /// How many bytes the object has.
    pub fn size(self) -> usize
        requires { made.AreFew self }
        ensures { result ≡ made.string_place self + self.strings_size }
    {
        (self.string_place() + self.strings_size) as usize
    }

    fn segment(self) -> SegmentCommand
        requires { made.AreFew self }
        ensures { result ≡ made.segment self }
    {
        SegmentCommand {
            cmd: LC_SEGMENT_64,
            cmdsize: 152,
            segname: [0; 16],
            vmaddr: 0,
            vmsize: u64::from(self.text_size),
            fileoff: u64::from(TEXT_PLACE),
            filesize: u64::from(self.text_size),
            maxprot: VM_PROT_READ | VM_PROT_WRITE | VM_PROT_EXECUTE,
            initprot: VM_PROT_READ | VM_PROT_WRITE | VM_PROT_EXECUTE,
            nsects: 1,
            flags: 0,
        }
    }

    fn section(self) -> SectionHeader
        requires { made.AreFew self }
        ensures { result ≡ made.section self }
    {
        SectionHeader {
            sectname: *b"__text\0\0\0\0\0\0\0\0\0\0",
            segname: *b"__TEXT\0\0\0\0\0\0\0\0\0\0",
            addr: 0,
            size: u64::from(self.text_size),
            offset: TEXT_PLACE,
            align: 2,
            reloff: self.relocation_place(),
            nreloc: self.relocations,
            flags: S_ATTR_PURE_INSTRUCTIONS | S_ATTR_SOME_INSTRUCTIONS,
            reserved1: 0,
            reserved2: 0,
            reserved3: 0,
        }
    }

    fn symtab(self) -> SymtabCommand
        requires { made.AreFew self }
        ensures { result ≡ made.symtab self }
    {
        SymtabCommand {
            cmd: LC_SYMTAB,
            cmdsize: 24,
            symoff: self.symbol_place(),
            nsyms: self.symbols,
            stroff: self.string_place(),
            strsize: self.strings_size,
        }
    }

    /// Appends the header and the commands.
    #[tactic(auto, using(crate::proofs::Appends::appends), unfolding(crate::specs::Generated::front_bytes))]
    pub fn put_front(self, out: &mut Vec<u8>) -> Result<(), AllocError>
        requires { made.AreFew self }
        ensures { OnOk result (out.new.items ≡ out.old.items ++ made.front_bytes self) }
    {
        HEADER.write(out)?;
        self.segment().write(out)?;
        self.section().write(out)?;
        self.symtab().write(out)?;
        Ok(())
    }

    /// Appends the zeros behind the section.
    #[tactic(auto, using(crate::proofs::Appends::first_zeros))]
    pub fn put_padding(self, out: &mut Vec<u8>) -> Result<(), AllocError>
        requires { made.AreFew self }
        ensures { OnOk result (out.new.items ≡ out.old.items ++ made.padding self) }
    {
        let count = self.relocation_place() - (TEXT_PLACE + self.text_size);
        out.extend_from_slice(&[0u8; 8][..count as usize])
    }
}
