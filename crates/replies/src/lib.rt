// The answers of every entry. What each case says in the definitions' terms is `specs/Told.antt`.

#![tactic(auto)]

ghost use Rattle.std.specs.Prelude.{◌≡◌, Some};
ghost use Rattle.replies.specs.Told.{number_of, IsByName, told_run, told_refusal, subject_of};
ghost use Rattle.replies.specs.Shown.{shown_run, shown_refusal, shown_reading};
ghost use Rattle.linkstate.specs.Replies.{refusal_at, run_a};
ghost use Rattle.linkstate.specs.Questions.{number_too_high};

use std::fmt;

// The lent runs that a place can lie in. C is there to be told as the run of legacy SRLGs; no value and no refusal has its place in it.
#[derive(Clone, Copy, Debug, PartialEq, Eq)]
pub enum Run {
    A,
    B,
    C,
    BgpLs,
}

// An offset in a run.
#[derive(Clone, Copy, Debug, PartialEq, Eq)]
pub struct Place {
    pub run: Run,
    pub offset: usize,
}

// The reasons of a refusal, in the order of their numbers, 1 to 8, and any other number.
#[derive(Clone, Copy, Debug, PartialEq, Eq)]
pub enum Reason {
    // a run is longer than it may be
    TooLong,
    // the length of run C is no multiple of 4
    OddSrlgs,
    // an element, a mask or a list runs past what holds it
    Cut,
    // a known kind or link identifier has a wrong length
    Length,
    // the result is longer than the lent room
    NoRoom,
    // the number of the application is too high
    NoApplication,
    // the code is none of the fourteen
    NoKind,
    // a known kind stands twice in a list
    Twice,
    // one that has no name here, by its number
    Other(u8),
}

impl From<Reason> for u8 {
    ghost from_gives = { λ reason n. n ≡ number_of reason };

    fn from(reason: Reason) -> u8 {
        match reason {
            Reason::TooLong => 1,
            Reason::OddSrlgs => 2,
            Reason::Cut => 3,
            Reason::Length => 4,
            Reason::NoRoom => 5,
            Reason::NoApplication => 6,
            Reason::NoKind => 7,
            Reason::Twice => 8,
            Reason::Other(n) => n,
        }
    }
}

// The reason that a number tells: 1 to 8 by their names, any other as it is.
impl From<u8> for Reason {
    ghost from_gives = { λ n reason. (number_of reason ≡ n) × IsByName reason };

    fn from(number: u8) -> Reason {
        match number {
            1 => Reason::TooLong,
            2 => Reason::OddSrlgs,
            3 => Reason::Cut,
            4 => Reason::Length,
            5 => Reason::NoRoom,
            6 => Reason::NoApplication,
            7 => Reason::NoKind,
            8 => Reason::Twice,
            n => Reason::Other(n),
        }
    }
}

// Why a call was refused, and where.
#[derive(Clone, Copy, Debug, PartialEq, Eq)]
pub struct Refusal {
    pub reason: Reason,
    pub place: Place,
}

// What a value reads as: a whole number, two numbers, a bandwidth, where the value stands and its length, or how many different SRLGs there are.
// Left free: which NaN a Bandwidth is, where the four bytes are a pattern of one; the value entries hand back the bytes themselves.
#[derive(Clone, Copy, Debug, PartialEq)]
pub enum Reading {
    Number(u32),
    Pair(u32, u32),
    Bandwidth(f32),
    Part { place: Place, length: usize },
    Count(usize),
}

// The named applications other than RSVP-TE, application n as 2 to the n.
#[derive(Clone, Copy, Debug, PartialEq, Eq)]
pub struct Named {
    pub standard: u64,
    pub user: u64,
}

// The rule that gave a subject its kind: an advertisement with L names the application; some name it; the general set was asked for; none names it,
// so that the general set counts; legacy without an L-flag; an ASLA gives a bandwidth; the top level of a BGP-LS run.
#[derive(Clone, Copy, Debug, PartialEq, Eq)]
pub enum Rule {
    ByL,
    Named,
    General,
    Unnamed,
    Legacy,
    Carried,
    Top,
}

// What decides or holds the value: an advertisement, told by the first byte of its element; legacy values, told by their run; or nothing that is told.
#[derive(Clone, Copy, Debug, PartialEq, Eq)]
pub enum Holder {
    At(Place),
    Legacy(Run),
    Nowhere,
}

// Why a subject gets what it gets of a kind.
#[derive(Clone, Copy, Debug, PartialEq, Eq)]
pub struct Why {
    pub rule: Rule,
    pub holder: Holder,
}

// Whom a question is about: the general set, or an application by its number.
#[derive(Clone, Copy, Debug, PartialEq, Eq)]
pub enum Subject {
    General,
    Standard(u32),
    User(u32),
}

// Every refusal is made here.
pub fn refuse_at(reason: Reason, run: Run, offset: usize) -> Refusal
    ensures { told_refusal result ≡ refusal_at (number_of reason) (told_run run) offset }
{
    Refusal {
        reason,
        place: Place { run, offset },
    }
}

// A refusal that no element is to blame for: run A, offset 0.
pub fn refuse_call(reason: Reason) -> Refusal
    ensures { told_refusal result ≡ refusal_at (number_of reason) run_a 0 }
{
    refuse_at(reason, Run::A, 0)
}

// Whether the subject's application number is above 63, or that of a user application above 31.
pub fn number_too_high(whom: Subject) -> bool
    ensures { result ≡ number_too_high (subject_of whom) }
{
    match whom {
        Subject::General => false,
        Subject::Standard(n) => 63 < n,
        Subject::User(n) => 31 < n,
    }
}

impl fmt::Display for Run {
    ghost output = { λ run. Some (shown_run run) };

    fn fmt<W: fmt::Write>(&self, f: &mut fmt::Formatter<W>) -> fmt::Result {
        f.write_str(match self {
            Run::A => "A",
            Run::B => "B",
            Run::C => "C",
            Run::BgpLs => "BGP-LS",
        })
    }
}

// A refusal by its number, run and offset.
impl fmt::Display for Refusal {
    ghost output = { λ refusal. Some (shown_refusal refusal) };

    fn fmt<W: fmt::Write>(&self, f: &mut fmt::Formatter<W>) -> fmt::Result {
        let number = u8::from(self.reason);
        write!(
            f,
            "refused {number} at {} {}",
            self.place.run, self.place.offset
        )
    }
}

impl fmt::Display for Reading {
    ghost output = { λ reading. Some (shown_reading reading) };

    fn fmt<W: fmt::Write>(&self, f: &mut fmt::Formatter<W>) -> fmt::Result {
        match self {
            Reading::Number(n) => write!(f, "{n}"),
            Reading::Pair(m, n) => write!(f, "{m} and {n}"),
            Reading::Bandwidth(_) => f.write_str("a bandwidth"),
            Reading::Part { place, length } => write!(f, "bytes at {}, {length}", place.offset),
            Reading::Count(n) => write!(f, "{n} SRLG"),
        }
    }
}
