//! Signatures and UUIDs, against those of another implementation.

mod images;

use self::images::{EMPTY_DYLIB, HELLO, HandImage, ONE_FUNCTION, image_of};
use image_join::{Seal, seal};
use mo_types::Bytes;
use sha2::{Digest, Sha256};
use sign_adhoc::{Check, check, sign, signature_size};
use std::alloc::Global;
use std::test::Fail;
use std::thread::Threads;

// Bytes that count up in steps of 7.
fn counted(alloc: Global, size: u32) -> Result<Vec<u8>, Fail> {
    let mut bytes = Vec::new(alloc);
    for k in 0..u64::from(size) {
        bytes.push((k * 7 % 251) as u8)?;
    }
    Ok(bytes)
}

fn has_digest(alloc: Global, bytes: &[u8], digest: &str) -> Result<bool, Fail> {
    let found = hex::encode(alloc, Sha256::digest(bytes))?;
    Ok(found.as_str() == digest)
}

// A name of 1,000 bytes.
const LONG_NAME: [u8; 1000] = [b'n'; 1000];

// An image of so many bytes, which count up, with the digest of its signature.
struct SignRow {
    size: u32,
    identifier: &'static [u8],
    text_size: u64,
    main: bool,
    digest: &'static str,
}

const SIGN_ROWS: [SignRow; 7] = [
    SignRow {
        size: 0,
        identifier: b"",
        text_size: 0,
        main: false,
        digest: "bf4dd3bbf57606d2986ecc2477fe6007bc7d0a8f6c8a55a6d77230d6554a962f",
    },
    SignRow {
        size: 1,
        identifier: b"a",
        text_size: 1,
        main: true,
        digest: "747543537233bf4dbb37ed93bff14b55a40e173cb9bc1eb4802645634c71fffd",
    },
    SignRow {
        size: 4095,
        identifier: b"out",
        text_size: 0x4000,
        main: true,
        digest: "db0ea6f7daef41ae0b93597605d1d812faa08ab504a0e701d65d19e3ebd7ff2c",
    },
    SignRow {
        size: 4096,
        identifier: b"out",
        text_size: 0x4000,
        main: false,
        digest: "27cd76ed0ff13fef0db4a2e80b352ce9cb8cc871c9bf652d7bd42a053fcb583f",
    },
    SignRow {
        size: 4097,
        identifier: b"lib/out",
        text_size: 0x1_2345_6789,
        main: true,
        digest: "271af08e001a780436bfd651994f42363c43bdd748f7887f494e4ad0a711f85b",
    },
    SignRow {
        size: 8192,
        identifier: &LONG_NAME,
        text_size: 0x4000,
        main: true,
        digest: "485fc95d690487b529d1b026c16c933cc596dfe7031db4c5fcddf3162f17e111",
    },
    SignRow {
        size: 300_000,
        identifier: b"out",
        text_size: 0,
        main: false,
        digest: "71b80b8abf0b99c02a05650456aefdcbc551e0790e21b53785d2d25cac9849ac",
    },
];

// Whether the image of a row is signed as it says.
fn is_signed<T: Threads + Sync>(
    rt: &T,
    alloc: Global,
    workers: u32,
    image: &[u8],
    row: &SignRow,
) -> Result<bool, Fail> {
    if image.len() > 1 << 30 || row.identifier.len() > 1 << 30 {
        return Ok(false);
    }
    if signature_size(row.identifier, image.len() as u64) >= 1 << 31 {
        return Ok(false);
    }
    let bytes = sign(
        rt,
        alloc,
        workers,
        image,
        row.identifier,
        row.text_size,
        row.main,
    )?;
    has_digest(alloc, bytes.as_slice(), row.digest)
}

#[test]
fn signatures_are_those_of_another_signer(rt: HostRuntime) -> Result<(), Fail> {
    for row in &SIGN_ROWS {
        let image = counted(rt.alloc(), row.size)?;
        for workers in 0..4 {
            assert!(rt; is_signed(&rt, rt.alloc(), workers, image.as_slice(), row)?);
        }
    }
    Ok(())
}

fn put(image: &mut [u8], at: usize, word: &[u8]) {
    for (byte, new) in image.iter_mut().skip(at).zip(word.iter()) {
        *byte = *new;
    }
}

// Writes over some bytes from a place on, as far as there are any.
fn blot(image: &mut [u8], from: u64, count: usize) {
    for byte in image.iter_mut().skip(from as usize).take(count) {
        *byte = 0xa5;
    }
}

// Seals an image over other bytes in place of its UUID and its signature.
fn seal_anew<T: Threads + Sync>(
    rt: &T,
    alloc: Global,
    workers: u32,
    image: &mut [u8],
    places: &Seal,
) -> Result<(), Fail> {
    blot(image, places.uuid_at, 16);
    blot(image, places.signature_at, usize::MAX);
    let identifier = places.identifier.as_slice();
    if identifier.len() > 1 << 30 || image.len() >= 1 << 32 {
        return Err(Fail::from("the image is too large"));
    }
    let size = signature_size(identifier, places.signature_at);
    if places.uuid_at > 1 << 32
        || places.uuid_at + 16 > places.signature_at
        || places.signature_at > 1 << 32
        || size > 1 << 32
        || places.signature_at + size != image.len() as u64
    {
        return Err(Fail::from("the places aren't in the image"));
    }
    seal(rt, alloc, workers, image, places)?;
    Ok(())
}

// An image whose one command names its signature, with bytes that count up behind it, and the digest of the whole.
struct SealRow {
    uuid_at: u64,
    signature_at: u32,
    size: u32,
    identifier: &'static [u8],
    text_size: u64,
    main: bool,
    digest: &'static str,
}

// The UUID in one page or in two, at a page's beginning and at the image's end; the image ends in a page or with it.
const SEAL_ROWS: [SealRow; 5] = [
    SealRow {
        uuid_at: 48,
        signature_at: 64,
        size: 208,
        identifier: b"",
        text_size: 0,
        main: false,
        digest: "cc2b3a6763802df9b2329d3a3d072f2d84671682a0d0b53f6cbc0b85715442c0",
    },
    SealRow {
        uuid_at: 4088,
        signature_at: 8192,
        size: 8384,
        identifier: b"lib/out",
        text_size: 0x4000,
        main: true,
        digest: "bc17f7466fe9782e68441bb2ff6e28b15cd3f944bd12515acfd40e03f11da2dc",
    },
    SealRow {
        uuid_at: 4080,
        signature_at: 4112,
        size: 5296,
        identifier: &LONG_NAME,
        text_size: 0x1_2345_6789,
        main: true,
        digest: "8b74c916fb6d2721da089c328a6eafa322084e3da14e3f3270ea35179cd9a4ea",
    },
    SealRow {
        uuid_at: 4096,
        signature_at: 300_000,
        size: 302_480,
        identifier: b"out",
        text_size: 0x4000,
        main: false,
        digest: "fb8038aa06f41697b0367351433abadb138e7b84bf318159ae9156eefb96c1bf",
    },
    SealRow {
        uuid_at: 299_984,
        signature_at: 300_000,
        size: 302_480,
        identifier: b"out",
        text_size: u64::MAX,
        main: true,
        digest: "37fe12fa8c17fffb9e59bac1e23df6babfddfd1db761001efd0bcecd0a506d88",
    },
];

// The image of a row before it is sealed.
fn unsealed(alloc: Global, row: &SealRow) -> Result<Vec<u8>, Fail> {
    let mut image = counted(alloc, row.size)?;
    let words = [
        0xfeed_facf,
        0x0100_000c,
        0,
        2,
        1,
        16,
        0,
        0,
        0x1d,
        16,
        row.signature_at,
        row.size.saturating_sub(row.signature_at),
    ];
    for number in 0..words.len() {
        put(
            image.as_mut_slice(),
            4 * number,
            &words[number].to_le_bytes(),
        );
    }
    Ok(image)
}

// Whether the image of a row is sealed as it says, a check finds it so, and tells of its last page where that is changed
// and of the first one where both are.
fn is_sealed<T: Threads + Sync>(
    rt: &T,
    alloc: Global,
    workers: u32,
    row: &SealRow,
) -> Result<bool, Fail> {
    let mut image = unsealed(alloc, row)?;
    let places = Seal {
        uuid_at: row.uuid_at,
        signature_at: u64::from(row.signature_at),
        text_size: row.text_size,
        identifier: Bytes::from_static(row.identifier),
        main: row.main,
    };
    seal_anew(rt, alloc, workers, image.as_mut_slice(), &places)?;
    let is_good = check(image.as_slice()) == Check::Good;
    let is_stated = has_digest(alloc, image.as_slice(), row.digest)?;
    let last = row.signature_at.saturating_sub(1);
    put(image.as_mut_slice(), last as usize, &[0xff]);
    let tells_last = check(image.as_slice()) == Check::No { page: last / 4096 };
    put(image.as_mut_slice(), 24, &[0xff]);
    let tells_first = check(image.as_slice()) == Check::No { page: 0 };
    Ok(is_good && is_stated && tells_last && tells_first)
}

fn sealed<T: Threads + Sync>(
    rt: &T,
    alloc: Global,
    workers: u32,
    hand: &HandImage,
) -> Result<Vec<u8>, Fail> {
    let mut image = image_of(alloc, hand)?;
    let places = Seal {
        uuid_at: u64::from(hand.uuid_at),
        signature_at: u64::from(hand.signature_at),
        text_size: 0x4000,
        identifier: Bytes::from_static(hand.identifier),
        main: hand.main,
    };
    seal_anew(rt, alloc, workers, image.as_mut_slice(), &places)?;
    Ok(image)
}

#[test]
fn images_are_sealed_as_by_another_linker(rt: HostRuntime) -> Result<(), Fail> {
    for workers in [1, 7] {
        for hand in [&ONE_FUNCTION, &EMPTY_DYLIB, &HELLO] {
            let image = image_of(rt.alloc(), hand)?;
            let sealed = sealed(&rt, rt.alloc(), workers, hand)?;
            assert!(rt; sealed.as_slice() == image.as_slice());
            assert_eq!(rt; check(sealed.as_slice()), Check::Good);
        }
        for row in &SEAL_ROWS {
            assert!(rt; is_sealed(&rt, rt.alloc(), workers, row)?);
        }
    }
    Ok(())
}

// What a check answers of the program with other bytes from a place on.
fn check_changed(alloc: Global, at: usize, word: &[u8]) -> Result<Check, Fail> {
    let mut image = image_of(alloc, &ONE_FUNCTION)?;
    put(image.as_mut_slice(), at, word);
    Ok(check(image.as_slice()))
}

const CHANGED: [(usize, &[u8], Check); 12] = [
    // Code, zeros, and what `__LINKEDIT` has.
    (0x268, &[1], Check::No { page: 0 }),
    (0x1000, &[1], Check::No { page: 1 }),
    (0x4010, &[1], Check::No { page: 4 }),
    // A hash.
    (0x40d0, &[1], Check::No { page: 0 }),
    (0x416f, &[1], Check::No { page: 4 }),
    // The identifier, which may be any, and the NUL behind it.
    (0x40cc, b"a/b", Check::Good),
    (0x40cf, b"c", Check::Absent),
    // How many bytes `__TEXT` has, and whether the image is a program.
    (0x40bc, &[1, 2, 3, 4, 5, 6, 7, 8], Check::Good),
    (0x40cb, &[0], Check::Good),
    // The place and the size that the command names, and which command it is.
    (0x240, &[0x61], Check::Absent),
    (0x244, &[0x20], Check::Absent),
    (0x238, &[0x1e], Check::Absent),
];

// Where the signature begins, and how many words of 4 bytes the super blob, its entry and the code directory have.
const FIRST_WORD: usize = 0x4060;

const WORDS: usize = 27;

// 0, all ones, and one past the ends of the file, of the signature, of the code directory, of its fields and of the pages.
const DAMAGE: [[u8; 4]; 7] = [
    [0; 4],
    [255; 4],
    [0, 0, 0x41, 0x71],
    [0, 0, 1, 0x11],
    [0, 0, 0, 0xfd],
    [0, 0, 0, 0x59],
    [0, 0, 0x40, 0x61],
];

// Whether a word of the headers may be another one: those of how many bytes `__TEXT` has may be any, and the last one
// that of a library.
fn is_free(number: usize, word: [u8; 4]) -> bool {
    number == 23 || number == 24 || number == 26 && word == [0; 4]
}

fn is_there(image: &[u8], at: usize, word: &[u8]) -> bool {
    match image.get(at..) {
        Some(rest) => rest.starts_with(word),
        None => false,
    }
}

// The first word of the headers of which a check doesn't tell where it is damaged, and with what.
fn missed_damage(alloc: Global, image: &[u8]) -> Result<Option<(usize, [u8; 4])>, Fail> {
    for number in 0..WORDS {
        let at = FIRST_WORD + 4 * number;
        for word in DAMAGE {
            let same = is_free(number, word) || is_there(image, at, word.as_slice());
            let want = if same { Check::Good } else { Check::Absent };
            if check_changed(alloc, at, word.as_slice())? != want {
                return Ok(Some((number, word)));
            }
        }
    }
    Ok(None)
}

#[test]
fn damage_is_told_of(rt: HostRuntime) -> Result<(), Fail> {
    for hand in [&ONE_FUNCTION, &EMPTY_DYLIB, &HELLO] {
        let image = image_of(rt.alloc(), hand)?;
        for end in 0..image.len() {
            assert_eq!(rt; check(&image[..end]), Check::Absent);
        }
    }
    for (at, word, want) in &CHANGED {
        assert_eq!(rt; (*at, check_changed(rt.alloc(), *at, word)?), (*at, *want));
    }
    let one = image_of(rt.alloc(), &ONE_FUNCTION)?;
    assert_eq!(rt; missed_damage(rt.alloc(), one.as_slice())?, None);
    Ok(())
}
