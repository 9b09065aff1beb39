// Runs the test vectors of RFC 3720 for CRC-32C, and the known numbers of both checks, and holds each computed number to the printed one.
#![tactic(auto)]

use anyhow::anyhow;
use checks::{Check, Crc32c, KnownNumbers, OlderSum, known_numbers};
use std::array;

// A command of iSCSI, as it is transmitted: SCSI Read (10).
const READ_COMMAND: [u8; 48] = [
    0x01, 0xc0, 0x00, 0x00, 0x00, 0x00, 0x00, 0x00, 0x00, 0x00, 0x00, 0x00, 0x00, 0x00, 0x00, 0x00,
    0x14, 0x00, 0x00, 0x00, 0x00, 0x00, 0x04, 0x00, 0x00, 0x00, 0x00, 0x14, 0x00, 0x00, 0x00, 0x18,
    0x28, 0x00, 0x00, 0x00, 0x00, 0x00, 0x00, 0x00, 0x02, 0x00, 0x00, 0x00, 0x00, 0x00, 0x00, 0x00,
];

// The bytes from 00 to 1f.
fn ascending() -> [u8; 32] {
    array::from_fn(|i| i as u8)
}

fn descending() -> [u8; 32] {
    let mut bytes = ascending();
    bytes.reverse();
    bytes
}

// A string, and the number that it should have.
#[derive(Clone, Copy)]
struct Vector<'a> {
    name: &'static str,
    bytes: &'a [u8],
    expected: u32,
}

// Prints the check of each string, and whether it is the expected one. Answers whether all are.
fn held(rt: &impl Print, check: &impl Check, vectors: &[Vector]) -> anyhow::Result<bool> {
    let mut all = true;
    for v in vectors {
        let computed = check.checksum(v.bytes);
        let holds = computed == v.expected;
        let verdict = if holds { "ok" } else { "WRONG" };
        println!(rt; "{}: {computed:#010x} {verdict}", v.name)?;
        all &= holds;
    }
    Ok(all)
}

fn crc_held(rt: &impl Print, known: KnownNumbers) -> anyhow::Result<bool> {
    let vectors = [
        Vector {
            name: "CRC-32C of 32 bytes 00",
            bytes: &[0x00; 32],
            expected: 0x8a91_36aa,
        },
        Vector {
            name: "CRC-32C of 32 bytes ff",
            bytes: &[0xff; 32],
            expected: 0x62a8_ab43,
        },
        Vector {
            name: "CRC-32C of 32 bytes ascending",
            bytes: &ascending(),
            expected: 0x46dd_794e,
        },
        Vector {
            name: "CRC-32C of 32 bytes descending",
            bytes: &descending(),
            expected: 0x113f_db5c,
        },
        Vector {
            name: "CRC-32C of a read command",
            bytes: &READ_COMMAND,
            expected: 0xd996_3a56,
        },
        Vector {
            name: "CRC-32C of the digits 1 to 9",
            bytes: b"123456789",
            expected: known.digits,
        },
    ];
    held(rt, &Crc32c, &vectors)
}

fn sums_held(rt: &impl Print, known: KnownNumbers) -> anyhow::Result<bool> {
    let vectors = [
        Vector {
            name: "older sum of 1 2",
            bytes: &[1, 2],
            expected: known.two,
        },
        Vector {
            name: "older sum of 1 2 3",
            bytes: &[1, 2, 3],
            expected: known.three,
        },
        Vector {
            name: "older sum of 1 2 3 4",
            bytes: &[1, 2, 3, 4],
            expected: known.four,
        },
    ];
    held(rt, &OlderSum, &vectors)
}

fn run(rt: &impl Print) -> anyhow::Result<()> {
    let known = known_numbers();
    let crc = crc_held(rt, known)?;
    let sums = sums_held(rt, known)?;
    if crc && sums {
        Ok(())
    } else {
        Err(anyhow!("a check is wrong"))
    }
}

fn main(rt: HostRuntime) -> anyhow::Result<()> {
    run(&rt)
}
