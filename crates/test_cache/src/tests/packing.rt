//! Packings as they lie in words, and what is read of them.
use mc_packing::{is_packing_of, pack, packed_len, unpack};
use std::alloc::Global;
use std::process::Abort;
use std::test::Fail;

/// The packing of this key and this value.
fn packed(alloc: Global, key: &[u8], value: &[u8]) -> Result<Vec<u64>, Fail> {
    let mut words = Vec::new(alloc);
    pack(&mut words, key, value)?;
    Ok(words)
}

/// A vector of n bytes, none of them the one before it.
fn bytes(alloc: Global, count: usize) -> Result<Vec<u8>, Fail> {
    let mut bytes = Vec::with_capacity(alloc, count)?;
    for place in 0..count {
        bytes.push((place % 251) as u8)?;
    }
    Ok(bytes)
}

/// The words are a packing of the key, and the value is behind what was there.
fn assert_unpacks(
    rt: &impl Abort,
    alloc: Global,
    words: &[u64],
    key: &[u8],
    value: &[u8],
) -> Result<(), Fail> {
    let mut into = Vec::from_slice(alloc, b"> ")?;
    assert!(rt; is_packing_of(words, key), "the key isn't found");
    unpack(words, key, &mut into)?;
    let mut wanted = Vec::from_slice(alloc, b"> ")?;
    wanted.extend_from_slice(value)?;
    assert!(rt;
        into.as_slice() == wanted.as_slice(),
        "the value is another"
    );
    Ok(())
}

/// The words that a reader of memory would see: lengths, then bytes from the lowest of a word on.
#[test]
fn words_are_as_they_should_lie(rt: HostRuntime) -> Result<(), Fail> {
    let short = packed(rt.alloc(), b"k", b"")?;
    assert!(rt;
        short.as_slice() == [1, 0, 0x6b].as_slice(),
        "a key of one byte"
    );
    let long = packed(rt.alloc(), b"hello world", b"\x01\x02")?;
    let wanted = [11, 2, 0x6f77_206f_6c6c_6568, 0x0064_6c72, 0x0201];
    assert!(rt;
        long.as_slice() == wanted.as_slice(),
        "a key of eleven bytes"
    );
    Ok(())
}

/// Keys and values whose last words are full, or not, or nearly. A vector that had more words takes the fewer.
#[test]
fn all_lengths_come_back(rt: HostRuntime) -> Result<(), Fail> {
    let mut words = Vec::new(rt.alloc());
    for value_len in [16_384, 9, 8, 7, 1, 0] {
        let value = bytes(rt.alloc(), value_len)?;
        for key_len in [250, 9, 8, 7, 1] {
            let key = bytes(rt.alloc(), key_len)?;
            pack(&mut words, &key, &value)?;
            let len = packed_len(&key, &value);
            assert!(rt; words.len() == len, "there are more words, or fewer");
            assert_unpacks(&rt, rt.alloc(), &words, &key, &value)?;
        }
    }
    Ok(())
}

/// Keys that are as long, or write the same words, aren't found.
#[test]
fn other_keys_are_not_found(rt: HostRuntime) -> Result<(), Fail> {
    let words = packed(rt.alloc(), b"a long key", b"value")?;
    for other in [
        b"a long kez".as_slice(),
        b"b long key",
        b"a long ke",
        b"a long key\0",
        b"",
    ] {
        assert!(rt; !is_packing_of(&words, other), "another key is found");
    }
    Ok(())
}

/// Words that nobody packed are of no key: one is missing, one is extra, or a byte is where the packing has zeros.
#[test]
fn other_words_are_no_packing(rt: HostRuntime) -> Result<(), Fail> {
    let refused = [
        [].as_slice(),
        &[1],
        &[1, 0],
        &[1, 0, 0x16b],
        &[1, 0, 0x6b, 0],
        &[1, 1, 0x6b],
        &[1, 1, 0x6b, 0x100],
        &[1, u64::MAX, 0x6b, 0],
        &[u64::MAX, 0, 0x6b],
    ];
    for words in refused {
        assert!(rt; !is_packing_of(words, b"k"), "words that are no packing");
    }
    Ok(())
}
