// That an export says what its link does, on the code: a link is exported into a lent buffer, and what was written is asked. It answers as the link does.

#![tactic(auto)]

ghost use Rattle.replies.specs.Told.{subject_of, told_asked, told_named};
ghost use Rattle.round_trip.specs.ReadBack.{AskedBack, NamedBack};

use replies::{Named, Reading, Refusal, Subject};

// A question to the export of a link: refused as the export is, else answered by the bytes written.
pub fn ask_export(
    a: &[u8],
    b: &[u8],
    c: &[u8],
    whom: Subject,
    code: usize,
    out: &mut [u8],
    list: &mut [u32],
) -> Result<Option<Reading>, Refusal>
    ensures { AskedBack a.now b.now c.now out.old out.new (subject_of whom) code list.old (told_asked result list.new) }
{
    let n = isis_export::export(a, b, c, out)?;
    bgpls_reader::ask(&out[0..n], whom, code, list)
}

// The applications that the export of a link names.
pub fn named_export(a: &[u8], b: &[u8], c: &[u8], out: &mut [u8]) -> Result<Named, Refusal>
    ensures { NamedBack a.now b.now c.now out.old out.new (told_named result) }
{
    let n = isis_export::export(a, b, c, out)?;
    bgpls_reader::named(&out[0..n])
}
