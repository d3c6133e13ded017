//! Objects that are made from a number, against the bytes of another implementation of the generator (in Python);
//! llvm-objdump and llvm-nm of LLVM 14 list those bytes as stated.

use link_gen::{generate, object_count};
use mo_types::OutOfMemory;
use sha2::{Digest, Sha256};
use std::alloc::Global;
use std::test::Fail;

// The object of an input of one function, which has `_main` and all weak functions.
const ONE_FUNCTION: &[u8] = b"\
    \xcf\xfa\xed\xfe\x0c\x00\x00\x01\x00\x00\x00\x00\x01\x00\x00\x00\x02\x00\x00\x00\xb0\x00\x00\x00\
    \x00\x20\x00\x00\x00\x00\x00\x00\x19\x00\x00\x00\x98\x00\x00\x00\x00\x00\x00\x00\x00\x00\x00\x00\
    \x00\x00\x00\x00\x00\x00\x00\x00\x00\x00\x00\x00\x00\x00\x00\x00\x20\x00\x00\x00\x00\x00\x00\x00\
    \xd0\x00\x00\x00\x00\x00\x00\x00\x20\x00\x00\x00\x00\x00\x00\x00\x07\x00\x00\x00\x07\x00\x00\x00\
    \x01\x00\x00\x00\x00\x00\x00\x00\x5f\x5f\x74\x65\x78\x74\x00\x00\x00\x00\x00\x00\x00\x00\x00\x00\
    \x5f\x5f\x54\x45\x58\x54\x00\x00\x00\x00\x00\x00\x00\x00\x00\x00\x00\x00\x00\x00\x00\x00\x00\x00\
    \x20\x00\x00\x00\x00\x00\x00\x00\xd0\x00\x00\x00\x02\x00\x00\x00\xf0\x00\x00\x00\x03\x00\x00\x00\
    \x00\x04\x00\x80\x00\x00\x00\x00\x00\x00\x00\x00\x00\x00\x00\x00\x02\x00\x00\x00\x18\x00\x00\x00\
    \x08\x01\x00\x00\x06\x00\x00\x00\x68\x01\x00\x00\x20\x00\x00\x00\x00\x00\x00\x94\x00\x00\x00\x94\
    \x00\x00\x00\x94\xc0\x03\x5f\xd6\xc0\x03\x5f\xd6\xc0\x03\x5f\xd6\xc0\x03\x5f\xd6\xc0\x03\x5f\xd6\
    \x00\x00\x00\x00\x00\x00\x00\x2d\x04\x00\x00\x00\x00\x00\x00\x2d\x08\x00\x00\x00\x02\x00\x00\x2d\
    \x01\x00\x00\x00\x0f\x01\x00\x00\x00\x00\x00\x00\x00\x00\x00\x00\x0a\x00\x00\x00\x0f\x01\x00\x00\
    \x00\x00\x00\x00\x00\x00\x00\x00\x10\x00\x00\x00\x0f\x01\x80\x00\x10\x00\x00\x00\x00\x00\x00\x00\
    \x14\x00\x00\x00\x0f\x01\x80\x00\x14\x00\x00\x00\x00\x00\x00\x00\x18\x00\x00\x00\x0f\x01\x80\x00\
    \x18\x00\x00\x00\x00\x00\x00\x00\x1c\x00\x00\x00\x0f\x01\x80\x00\x1c\x00\x00\x00\x00\x00\x00\x00\
    \x00\x5f\x67\x30\x30\x30\x30\x30\x30\x00\x5f\x6d\x61\x69\x6e\x00\x5f\x77\x30\x00\x5f\x77\x31\x00\
    \x5f\x77\x32\x00\x5f\x77\x33\x00\
";

// Of all objects of an input, one after the other: how many there are, their bytes, and the SHA-256 of these.
type Row = (u32, u32, usize, &'static str);

const INPUTS: [Row; 9] = [
    (
        1,
        1,
        392,
        "e83bbccaca40fb116c4ee128bf0c421248af8bc469681a7ee448519aaeedccb0",
    ),
    (
        2,
        1,
        457,
        "3d2cc80ae02e7926184d7ebdf6b4217a77433797afa4537e6f79eba94a1a7f6b",
    ),
    (
        63,
        1,
        4422,
        "4f3a0d44e9d36734bb63774e9164a71764f8ff05e201010e0341708494925c7e",
    ),
    (
        64,
        1,
        4487,
        "9a0ccfabbeca0841bd8db0340c4c0a72e6ef737f7475995e3dcdcb571429e4f2",
    ),
    (
        65,
        2,
        4884,
        "240308336a925ed78c48eb383856db99b4adfd2b710ecdb7d2cadb9268e2cffe",
    ),
    (
        130,
        3,
        11543,
        "2624875671f65b8b03a876291d6d8e4f8f881674df374747a1d072936bbcba08",
    ),
    (
        200,
        4,
        19460,
        "907e77309cd484ddb2da0cffcb313c988b3f3d8fa7108df3037360e2eddb49e1",
    ),
    (
        1000,
        16,
        113_599,
        "c331cf4421fb9ae5ac1950d9d9dcfd73e85081e63f551cc21dbbef21a149a28a",
    ),
    (
        20_000,
        313,
        2_386_258,
        "73902d9df38a0385816a4fa321945fd778624a1326f5773bce602377c50babdd",
    ),
];

// Whether the objects of an input are the stated ones.
fn is_made(alloc: Global, row: &Row) -> Result<bool, OutOfMemory> {
    let (count, objects, size, digest) = *row;
    if count == 0 || count > 20_000 {
        return Ok(false);
    }
    let mut hasher = Sha256::new();
    let mut made: usize = 0;
    for object in 0..object_count(count) {
        let bytes = generate(alloc, count, object)?;
        hasher.update(bytes.as_slice());
        made = made.saturating_add(bytes.len());
    }
    let found = hex::encode(alloc, hasher.finalize())?;
    Ok(object_count(count) == objects && made == size && found.as_str() == digest)
}

#[test]
fn objects_have_the_stated_bytes(rt: HostRuntime) -> Result<(), Fail> {
    let one = generate(rt.alloc(), 1, 0)?;
    assert!(rt; one.as_slice() == ONE_FUNCTION);
    for row in &INPUTS {
        assert!(rt; is_made(rt.alloc(), row)?);
    }
    Ok(())
}
