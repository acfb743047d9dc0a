//! A perfect hash of the mnemonics, so that the reader finds a mnemonic by one comparison.
//!
//! A `match` on so many strings compiles to a jump table, whose indirect branch is often
//! mispredicted. All mnemonics have different hashes below 512, so one load and one comparison are
//! enough, and the table needs 512 bytes. The prover compares it with the definitions of all of
//! them. `tools/from_mnemonics` writes it.

ghost use Rattle.std.specs.Prelude.{◌≡◌, ◌<◌, get_or};
ghost use Rattle.bpf_text.specs.insn.MnemonicHash.{hash_of};

/// Maps the hash of a mnemonic to its index in `ALL`. All other entries are 0.
static INDEX_BY_HASH: [u8; 512] = [
    0, 0, 0, 0, 0, 0, 46, 0, 0, 0, 0, 0, 59, 64, 0, 0, 53, 0, 0, 0, 0, 0, 56, 0, 0, 0, 0, 0, 0, 0,
    38, 65, 0, 0, 0, 0, 33, 0, 0, 0, 0, 0, 86, 50, 0, 87, 0, 71, 0, 0, 0, 88, 0, 0, 0, 0, 7, 0, 0,
    72, 0, 0, 0, 0, 0, 0, 0, 0, 0, 0, 0, 0, 0, 0, 0, 37, 0, 0, 0, 0, 0, 0, 0, 0, 6, 114, 0, 0, 76,
    0, 0, 0, 0, 67, 0, 0, 0, 0, 0, 0, 32, 0, 0, 0, 0, 104, 0, 0, 0, 4, 97, 0, 98, 0, 106, 0, 0, 0,
    0, 99, 52, 0, 0, 0, 0, 0, 89, 0, 0, 0, 0, 0, 0, 0, 0, 73, 0, 119, 0, 0, 0, 0, 0, 0, 0, 0, 0,
    42, 10, 0, 101, 0, 41, 0, 0, 0, 2, 0, 40, 0, 0, 0, 0, 0, 0, 0, 0, 0, 0, 0, 0, 90, 0, 0, 91, 0,
    0, 0, 0, 102, 0, 92, 0, 0, 0, 0, 0, 0, 0, 108, 0, 0, 109, 83, 24, 0, 0, 0, 110, 0, 0, 0, 0, 0,
    0, 0, 0, 0, 12, 0, 0, 0, 70, 0, 0, 0, 14, 96, 0, 66, 0, 0, 0, 0, 0, 0, 0, 0, 0, 0, 0, 116, 0,
    111, 0, 112, 0, 21, 0, 0, 60, 0, 113, 0, 0, 0, 0, 0, 0, 0, 0, 0, 0, 0, 0, 103, 18, 0, 0, 115,
    0, 0, 0, 0, 0, 0, 0, 0, 0, 0, 0, 61, 0, 0, 0, 0, 0, 0, 0, 0, 0, 0, 0, 0, 0, 0, 0, 0, 0, 0, 27,
    0, 0, 93, 1, 94, 25, 0, 0, 0, 0, 0, 95, 0, 0, 0, 0, 69, 0, 0, 0, 0, 0, 0, 0, 0, 0, 0, 0, 3, 63,
    39, 0, 0, 0, 0, 23, 0, 31, 0, 0, 0, 0, 0, 26, 0, 49, 0, 0, 0, 0, 0, 0, 48, 0, 0, 0, 0, 43, 68,
    0, 16, 0, 30, 0, 80, 0, 22, 82, 9, 0, 0, 0, 0, 0, 0, 0, 0, 0, 0, 0, 0, 0, 28, 0, 0, 0, 0, 81,
    0, 0, 0, 5, 0, 0, 0, 0, 0, 17, 0, 0, 0, 36, 0, 8, 55, 85, 29, 84, 0, 0, 0, 0, 13, 0, 0, 0, 0,
    0, 0, 0, 0, 0, 0, 0, 0, 0, 0, 0, 0, 0, 107, 0, 20, 0, 0, 0, 0, 0, 57, 0, 0, 0, 0, 58, 77, 35,
    0, 0, 0, 0, 51, 0, 0, 0, 79, 78, 62, 0, 0, 0, 0, 19, 0, 0, 0, 54, 0, 0, 0, 0, 0, 0, 0, 0, 0, 0,
    15, 0, 0, 0, 0, 0, 0, 117, 0, 0, 0, 105, 0, 0, 0, 74, 0, 0, 0, 118, 0, 0, 45, 0, 100, 11, 75,
    0, 44, 0, 0, 0, 0, 0, 0, 0, 0, 34, 0, 0, 0, 0, 0, 0, 47,
];

/// The index in `ALL` of the mnemonic with the hash of a token, or of any other mnemonic if none
/// has this hash. Mnemonics don't collide: the factor was found by trying numbers.
pub(crate) fn index_of(token: &[u8]) -> usize
    ensures value { result ≡ get_or INDEX_BY_HASH (hash_of token.now) 0 }
    ensures within { result < 120 }
{
    let mut hash: u64 = 0;
    for b in token {
        hash = (hash + u64::from(*b)) * 3727115 % 0x1_0000_0000;
    }
    INDEX_BY_HASH[(hash / 0x80_0000) as usize] as usize
}
