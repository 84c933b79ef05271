// Runs published examples of LEB128 through the codec and compares: DWARF 5, section 7.6, and the cases of document 01.
// One line for each case, then how many came out as published.
#![tactic(auto)]

use std::io;

// How many cases there are.
const CASES: u64 = 26;

// Writes the line of a case, and hands the outcome back.
fn told(rt: &impl Print, ok: bool, text: &str) -> io::Result<bool> {
    let word = if ok { "ok" } else { "WRONG" };
    println!(rt; "{word} {text}")?;
    Ok(ok)
}

// Whether v is written to `out` as `bytes`, no more and no less.
fn written_to(out: &mut [u8], v: u64, bytes: &[u8]) -> bool {
    match codec::put_varint(out, 0, v) {
        Ok(n) => n <= out.len() && &out[..n] == bytes,
        Err(_) => false,
    }
}

fn written_as(v: u64, bytes: &[u8]) -> bool {
    let mut out = [0u8; 10];
    written_to(&mut out, v, bytes)
}

// Whether `bytes` read as v, all of them.
fn read_as(bytes: &[u8], v: u64) -> bool {
    codec::get_varint(bytes, 0).is_ok_and(|read| read == (v, bytes.len()))
}

// A case in both directions.
fn both(rt: &impl Print, v: u64, bytes: &[u8], text: &str) -> io::Result<bool> {
    let there = written_as(v, bytes);
    let back = read_as(bytes, v);
    let long = codec::varint_len(v) == bytes.len();
    told(rt, there && back && long, text)
}

// A case that is refused with this number.
fn refused(rt: &impl Print, bytes: &[u8], number: u64, text: &str) -> io::Result<bool> {
    let read = codec::get_varint(bytes, 0);
    let as_published = read.is_err_and(|r| error::number(r) == number);
    told(rt, as_published, text)
}

// Document 01 has 300 and 2^64 - 1; the first five and 624485 are DWARF's.
fn published(rt: &impl Print, i: u64) -> io::Result<bool> {
    match i {
        0 => both(rt, 2, b"\x02", "2 is 02"),
        1 => both(rt, 127, b"\x7F", "127 is 7F"),
        2 => both(rt, 128, b"\x80\x01", "128 is 80 01"),
        3 => both(rt, 129, b"\x81\x01", "129 is 81 01"),
        4 => both(rt, 12857, b"\xB9\x64", "12857 is B9 64"),
        5 => both(rt, 624485, b"\xE5\x8E\x26", "624485 is E5 8E 26"),
        6 => both(rt, 300, b"\xAC\x02", "300 is AC 02"),
        7 => both(
            rt,
            18446744073709551615,
            b"\xFF\xFF\xFF\xFF\xFF\xFF\xFF\xFF\xFF\x01",
            "2^64 - 1 is nine FF then 01",
        ),
        8 => both(rt, 0, b"\x00", "0 is 00"),
        9 => both(
            rt,
            9223372036854775808,
            b"\x80\x80\x80\x80\x80\x80\x80\x80\x80\x01",
            "2^63 is nine 80 then 01",
        ),
        _ => both(
            rt,
            9223372036854775807,
            b"\xFF\xFF\xFF\xFF\xFF\xFF\xFF\xFF\x7F",
            "2^63 - 1 is eight FF then 7F",
        ),
    }
}

// 22, 23, and 30 for bytes that only pad; document 02 has 80 00.
fn refusals(rt: &impl Print, i: u64) -> io::Result<bool> {
    match i {
        11 => refused(rt, b"", 22, "no byte is 22"),
        12 => refused(rt, b"\x80", 22, "80 is 22"),
        13 => refused(rt, b"\xE5\x8E", 22, "E5 8E is 22"),
        14 => refused(
            rt,
            b"\xFF\xFF\xFF\xFF\xFF\xFF\xFF\xFF\xFF",
            22,
            "nine FF is 22",
        ),
        15 => refused(
            rt,
            b"\xFF\xFF\xFF\xFF\xFF\xFF\xFF\xFF\xFF\x81",
            22,
            "nine FF then 81 is 22",
        ),
        16 => refused(
            rt,
            b"\x80\x80\x80\x80\x80\x80\x80\x80\x80\x80",
            22,
            "ten 80 is 22",
        ),
        17 => refused(
            rt,
            b"\xFF\xFF\xFF\xFF\xFF\xFF\xFF\xFF\xFF\x02",
            23,
            "nine FF then 02 is 23",
        ),
        18 => refused(
            rt,
            b"\x80\x80\x80\x80\x80\x80\x80\x80\x80\x02",
            23,
            "nine 80 then 02 is 23",
        ),
        19 => refused(
            rt,
            b"\xFF\xFF\xFF\xFF\xFF\xFF\xFF\xFF\xFF\xFF",
            23,
            "ten FF is 23",
        ),
        20 => refused(
            rt,
            b"\x80\x80\x80\x80\x80\x80\x80\x80\x80\x80\x00",
            23,
            "ten 80 then 00 is 23",
        ),
        21 => refused(
            rt,
            b"\xFF\xFF\xFF\xFF\xFF\xFF\xFF\xFF\xFF\x81\x00",
            23,
            "nine FF, 81 and 00 is 23",
        ),
        22 => refused(rt, b"\x80\x00", 30, "80 00 is 30"),
        23 => refused(rt, b"\x82\x80\x00", 30, "82 80 00 is 30"),
        24 => refused(
            rt,
            b"\x80\x80\x80\x80\x80\x80\x80\x80\x80\x00",
            30,
            "nine 80 then 00 is 30",
        ),
        _ => refused(
            rt,
            b"\xFF\xFF\xFF\xFF\xFF\xFF\xFF\xFF\xFF\x00",
            30,
            "nine FF then 00 is 30",
        ),
    }
}

fn case(rt: &impl Print, i: u64) -> io::Result<bool> {
    if i < 11 {
        published(rt, i)
    } else {
        refusals(rt, i)
    }
}

fn main(rt: HostRuntime) -> io::Result<()> {
    let mut passed: u64 = 0;
    for i in 0..CASES {
        if case(&rt, i)? {
            passed += 1;
        }
    }
    println!(rt; "{passed} of {CASES}")
}
