// The worked links and RFC 9294's illustration, asked and exported through the proved entries; what they answer is held to the file stdout.

#![tactic(auto)]

use replies::{Named, Reading, Refusal, Subject};
use std::{fmt, io};

// An answer: what it reads as, that there is none, or the refusal.
#[derive(Drop)]
struct Told(Result<Option<Reading>, Refusal>);

impl fmt::Display for Told {
    fn fmt<W: fmt::Write>(&self, f: &mut fmt::Formatter<W>) -> fmt::Result {
        match self.0 {
            Ok(None) => f.write_str("absent"),
            Ok(Some(reading)) => write!(f, "{reading}"),
            Err(refusal) => write!(f, "{refusal}"),
        }
    }
}

// Bytes in hexadecimal digits.
#[derive(Drop)]
struct Hex<'a>(&'a [u8]);

impl<'a> fmt::Display for Hex<'a> {
    fn fmt<W: fmt::Write>(&self, f: &mut fmt::Formatter<W>) -> fmt::Result {
        for byte in self.0 {
            write!(f, "{byte:02x}")?;
        }
        Ok(())
    }
}

// A link's TE metric and SRLGs for a subject, on a line; with one SRLG, its number.
fn ask_link(
    rt: &impl Print,
    label: &str,
    a: &[u8],
    b: &[u8],
    c: &[u8],
    whom: Subject,
) -> io::Result<()> {
    let mut list = [0u32; 4];
    let metric = Told(isis_link::ask(a, b, c, whom, 1092, &mut list));
    let srlgs = Told(isis_link::ask(a, b, c, whom, 1096, &mut list));
    println!(rt;
        "{label}: metric {metric}; SRLGs {srlgs}, first {}",
        list[0]
    )
}

// The first n bytes of a buffer.
fn front(out: &[u8], n: usize) -> &[u8] {
    out.get(..n).unwrap_or(out)
}

// The export of a link into the lent buffer, on a line: its length and its bytes.
fn export_link(
    rt: &impl Print,
    label: &str,
    a: &[u8],
    b: &[u8],
    c: &[u8],
    out: &mut [u8],
) -> io::Result<()> {
    match isis_export::export(a, b, c, out) {
        Ok(n) => println!(rt; "{label}, export: {n} bytes {}", Hex(front(out, n))),
        Err(refusal) => println!(rt; "{label}, export: {refusal}"),
    }
}

fn export_whole(rt: &impl Print, label: &str, a: &[u8], b: &[u8], c: &[u8]) -> io::Result<()> {
    let mut out = [0xAAu8; 256];
    export_link(rt, label, a, b, c, &mut out)
}

fn ask_run(rt: &impl Print, label: &str, r: &[u8], whom: Subject) -> io::Result<()> {
    let mut list = [0u32; 4];
    let metric = Told(bgpls_reader::ask(r, whom, 1092, &mut list));
    println!(rt; "{label}: metric {metric}")
}

fn say_named(rt: &impl Print, label: &str, named: Result<Named, Refusal>) -> io::Result<()> {
    match named {
        Ok(Named { standard, user }) => println!(rt; "{label}: standard {standard}, user {user}"),
        Err(refusal) => println!(rt; "{label}: {refusal}"),
    }
}

// A case of the starred table: the TE metric of RSVP-TE, SR Policy, LFA, standard 6, user 0 and user 5, and the export.
fn starred(rt: &impl Print, label: &str, a: &[u8]) -> io::Result<()> {
    let subjects = [
        Subject::Standard(0),
        Subject::Standard(1),
        Subject::Standard(2),
        Subject::Standard(6),
        Subject::User(0),
        Subject::User(5),
    ];
    print!(rt; "{label}:")?;
    for whom in subjects {
        print!(rt;
            " {};",
            Told(isis_link::ask(a, b"", b"", whom, 1092, &mut []))
        )?;
    }
    println!(rt)?;
    export_whole(rt, label, a, b"", b"")
}

fn starred_table(rt: &impl Print) -> io::Result<()> {
    starred(rt, "nothing", b"")?;
    starred(
        rt,
        "M S G",
        b"\x12\x03\x00\x00\x0a\x10\x08\x01\x00\x40\x12\x03\x00\x00\x14\x10\x07\x00\x00\x12\x03\x00\x00\x1e",
    )?;
    starred(
        rt,
        "M Z G",
        b"\x12\x03\x00\x00\x0a\x10\x03\x81\x00\x40\x10\x07\x00\x00\x12\x03\x00\x00\x1e",
    )?;
    starred(
        rt,
        "M S Z",
        b"\x12\x03\x00\x00\x0a\x10\x08\x01\x00\x40\x12\x03\x00\x00\x14\x10\x03\x81\x00\x40",
    )?;
    starred(
        rt,
        "SR Policy with nothing, G",
        b"\x10\x03\x01\x00\x40\x10\x07\x00\x00\x12\x03\x00\x00\x1e",
    )?;
    starred(
        rt,
        "a mask without a bit, G",
        b"\x10\x08\x01\x00\x00\x12\x03\x00\x00\x14\x10\x07\x00\x00\x12\x03\x00\x00\x1e",
    )?;
    starred(
        rt,
        "standard 6",
        b"\x10\x08\x01\x00\x02\x12\x03\x00\x00\x14",
    )?;
    starred(
        rt,
        "S, then SR Policy and LFA",
        b"\x10\x08\x01\x00\x40\x12\x03\x00\x00\x14\x10\x08\x01\x00\x60\x12\x03\x00\x00\x15",
    )?;
    starred(
        rt,
        "user 0, G",
        b"\x10\x08\x00\x01\x80\x12\x03\x00\x00\x14\x10\x07\x00\x00\x12\x03\x00\x00\x1e",
    )?;
    starred_unread(rt)
}

// Its last rows, whose bytes are ignored or refused.
fn starred_unread(rt: &impl Print) -> io::Result<()> {
    starred(
        rt,
        "a mask of nine bytes",
        b"\x10\x0b\x09\x00\xff\xff\xff\xff\xff\xff\xff\xff\xff",
    )?;
    starred(rt, "an ASLA of one byte", b"\x10\x01\x00")?;
    starred(rt, "a metric of two bytes", b"\x12\x02\x00\x0a")?;
    starred(rt, "a metric cut short", b"\x12\x03\x00\x00")
}

// M S G in a room, and how the room looks then.
fn in_room(rt: &impl Print, label: &str, a: &[u8], room: &mut [u8]) -> io::Result<()> {
    export_link(rt, label, a, b"", b"", room)?;
    println!(rt; "the room: {}", Hex(room))
}

// M S G in a room of just its length, in one of a byte more, whose last stays as it was, and in one of a byte less, which stays whole.
fn rooms(rt: &impl Print, a: &[u8]) -> io::Result<()> {
    let mut room = [0xAAu8; 44];
    export_link(rt, "M S G in 44", a, b"", b"", &mut room)?;
    let mut room = [0xAAu8; 45];
    in_room(rt, "M S G in 45", a, &mut room)?;
    let mut room = [0xAAu8; 43];
    in_room(rt, "M S G in 43", a, &mut room)
}

fn sides(rt: &impl Print, a: &[u8], b: &[u8], c: &[u8]) -> io::Result<()> {
    ask_link(rt, "sides, SR Policy", a, b, c, Subject::Standard(1))?;
    ask_link(rt, "sides, LFA", a, b, c, Subject::Standard(2))?;
    ask_link(rt, "sides, standard 63", a, b, c, Subject::Standard(63))?;
    ask_link(rt, "sides, standard 64", a, b, c, Subject::Standard(64))?;
    say_named(rt, "sides, named", isis_link::named(a, b, c))?;
    export_whole(rt, "sides", a, b, c)
}

// Runs A of the longest length and of a byte more, all 0.
fn zeros(rt: &impl Print) -> io::Result<()> {
    let run = [0u8; 2049];
    ask_link(
        rt,
        "2,048 bytes",
        front(&run, 2048),
        b"",
        b"",
        Subject::General,
    )?;
    ask_link(rt, "2,049 bytes", &run, b"", b"", Subject::General)
}

fn illustration(rt: &impl Print, a: &[u8], b: &[u8], c: &[u8]) -> io::Result<()> {
    ask_link(rt, "illustration, S", a, b, c, Subject::Standard(1))?;
    ask_link(rt, "illustration, F", a, b, c, Subject::Standard(2))?;
    ask_link(rt, "illustration, X", a, b, c, Subject::Standard(3))?;
    ask_link(rt, "illustration, another", a, b, c, Subject::User(5))?;
    say_named(rt, "illustration, named", isis_link::named(a, b, c))?;
    export_whole(rt, "illustration", a, b, c)
}

fn read_back(rt: &impl Print, r: &[u8]) -> io::Result<()> {
    ask_run(rt, "M S G read, RSVP-TE", r, Subject::Standard(0))?;
    ask_run(rt, "M S G read, SR Policy", r, Subject::Standard(1))?;
    ask_run(rt, "M S G read, LFA", r, Subject::Standard(2))?;
    ask_run(rt, "M S G read, user 5", r, Subject::User(5))?;
    say_named(rt, "M S G read, named", bgpls_reader::named(r))?;
    ask_run(rt, "M S G cut, LFA", front(r, 43), Subject::Standard(2))
}

fn retired(rt: &impl Print, a: &[u8]) -> io::Result<()> {
    ask_link(rt, "user 32 alone, user 32", a, b"", b"", Subject::User(32))?;
    ask_link(rt, "user 32 alone, user 31", a, b"", b"", Subject::User(31))?;
    say_named(rt, "user 32 alone, named", isis_link::named(a, b"", b""))?;
    export_whole(rt, "user 32 alone", a, b"", b"")
}

fn half_retired(rt: &impl Print, a: &[u8], b: &[u8], r: &[u8]) -> io::Result<()> {
    say_named(rt, "user 31 and 63, named", isis_link::named(a, b"", b""))?;
    export_whole(rt, "user 31 and 63", a, b"", b"")?;
    say_named(rt, "user 40 in B, named", isis_link::named(b"", b, b""))?;
    say_named(rt, "user 31 and 63 read, named", bgpls_reader::named(r))
}

fn main(rt: HostRuntime) -> io::Result<()> {
    starred_table(&rt)?;
    rooms(
        &rt,
        b"\x12\x03\x00\x00\x0a\x10\x08\x01\x00\x40\x12\x03\x00\x00\x14\x10\x07\x00\x00\x12\x03\x00\x00\x1e",
    )?;
    // A is general with metric 30, and B names SR Policy with SRLG 7.
    sides(
        &rt,
        b"\x10\x07\x00\x00\x12\x03\x00\x00\x1e",
        b"\xee\x19\x00\x00\x00\x00\x00\x00\x00\x01\x00\x40\x0a\x04\x08\x00\x00\x00\x01\x00\x00\x00\x02\x00\x00\x00\x07",
        b"",
    )?;
    // Run A of the greatest size, and one byte more.
    zeros(&rt)?;
    // RFC 9294 section 4.1: an ASLA for S, F and X; general SRLGs; SRLGs for X.
    illustration(
        &rt,
        b"\x10\x08\x01\x00\x70\x12\x03\x00\x00\x0a",
        b"\xee\x18\x00\x00\x00\x00\x00\x00\x00\x00\x00\x0a\x04\x08\x00\x00\x00\x01\x00\x00\x00\x02\x00\x00\x00\x05\xee\x19\x00\x00\x00\x00\x00\x00\x00\x01\x00\x10\x0a\x04\x08\x00\x00\x00\x01\x00\x00\x00\x02\x00\x00\x00\x06",
        b"",
    )?;
    // The export of M S G read back; and the same cut short.
    read_back(
        &rt,
        b"\x04\x44\x00\x04\x00\x00\x00\x0a\x04\x62\x00\x0c\x00\x00\x00\x00\x04\x44\x00\x04\x00\x00\x00\x1e\x04\x62\x00\x10\x04\x00\x00\x00\x40\x00\x00\x00\x04\x44\x00\x04\x00\x00\x00\x14",
    )?;
    // User bits 32 to 63 are retired (E12): an ASLA for user 32 alone before G; masks of 8 bytes in A and in a run, and one of 6 in B.
    retired(
        &rt,
        b"\x10\x0c\x00\x05\x00\x00\x00\x00\x80\x12\x03\x00\x00\x14\x10\x07\x00\x00\x12\x03\x00\x00\x1e",
    )?;
    half_retired(
        &rt,
        b"\x10\x0f\x00\x08\x00\x00\x00\x01\x00\x00\x00\x01\x12\x03\x00\x00\x14",
        b"\xee\x1e\x00\x00\x00\x00\x00\x02\x00\x00\x06\x00\x00\x00\x00\x00\x80\x0a\x04\x08\x00\x00\x00\x01\x00\x00\x00\x02\x00\x00\x00\x07",
        b"\x04\x62\x00\x14\x00\x08\x00\x00\x00\x00\x00\x01\x00\x00\x00\x01\x04\x44\x00\x04\x00\x00\x00\x14",
    )
}
