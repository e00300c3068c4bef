// The elements of a list, one after the other: each has its type, the length of its value, and the value.

#![tactic(auto)]

ghost use Rattle.std.specs.Prelude.{◌≡◌, ℕ, ◌+◌, ◌^◌, ◌≤◌, ◌<◌, length, drop};
ghost use Rattle.std.proofs.Common.{rules};
ghost use Rattle.linkstate.specs.Bytes.{number, bytes_at};
ghost use Rattle.frames.specs.Uncut.{Uncut, left};

use std::marker::PhantomData;

// How many bytes a type has in a list, and a length: some, and at most two.
pub trait Width {
    const BYTES: usize;

    ghost BYTES: { ℕ };

    // The number that so many bytes write at a place.
    fn number_at(s: &[u8], at: usize) -> usize
        requires { at + BYTES ≤ length s.now }
        ensures value { result ≡ number (bytes_at s.now at BYTES) }
        ensures small { result < 65536 };

    ghost some: { 0 < BYTES };

    ghost few: { BYTES ≤ 2 };
}

// One byte, as in IS-IS.
pub struct One;

// Two, as in BGP-LS.
pub struct Two;

impl Width for One {
    const BYTES: usize = 1;

    ghost BYTES = { 1 };

    fn number_at(s: &[u8], at: usize) -> usize {
        usize::from(s[at])
    }

    ghost some = { Prim.search rules };

    ghost few = { Prim.search rules };
}

impl Width for Two {
    const BYTES: usize = 2;

    ghost BYTES = { 2 };

    fn number_at(s: &[u8], at: usize) -> usize {
        octets::read16(s, at)
    }

    ghost some = { Prim.search rules };

    ghost few = { Prim.search rules };
}

// A whole element: the offset of its first byte, its type and its value.
#[derive(Clone, Copy)]
pub struct Element<'a> {
    pub at: usize,
    pub kind: usize,
    pub value: &'a [u8],
}

// An element that is cut off, by the offset of its first byte.
#[derive(Clone, Copy)]
pub struct Cut {
    pub at: usize,
}

// The elements of a list, from a place on. The list's first byte is at the offset `base` of its run.
#[derive(Drop)]
pub struct Elements<'a, W: Width> {
    list: &'a [u8],
    base: usize,
    at: usize,
    width: PhantomData<W>,
    pub ghost within: { at ≤ length list.now },
    pub ghost fits: { base + length list.now < 2 ^ 64 },
}

impl<'a, W: Width> Elements<'a, W> {
    ghost use Rattle.linkstate.specs.Elements.{elements};
    ghost use Rattle.frames.specs.Left.{elements_left};

    // Of a list whose first byte is at the offset `base` of its run.
    pub fn new(list: &'a [u8], base: usize) -> Elements<'a, W>
        requires { base + length list.now < 2 ^ 64 }
        ensures { elements_left result ≡ elements W.BYTES base list.now }
    {
        Elements {
            list,
            base,
            at: 0,
            width: PhantomData,
        }
    }

    // Of the list that begins at a place of a run and ends with it.
    pub fn behind(run: &'a [u8], at: usize) -> Elements<'a, W>
        requires { at ≤ length run.now }
        ensures { elements_left result ≡ elements W.BYTES at (drop at run.now) }
    {
        Elements {
            list: run,
            base: 0,
            at,
            width: PhantomData,
        }
    }
}

impl<'a, W: Width> Iterator for Elements<'a, W> {
    ghost use Rattle.std.specs.Iterator.{YieldsFirstBy, item_count};
    ghost use Rattle.frames.specs.Left.{shown, elements_left};

    type Item = Result<Element<'a>, Cut>;

    ghost next_gives = { YieldsFirstBy shown elements_left };

    ghost remaining = { item_count elements_left };

    // Behind one that is cut off there is none. The tests are of sums, and not of how much is left, which costs a walk 8 to 20% more.
    fn next(&mut self) -> Option<Result<Element<'a>, Cut>> {
        let list = self.list;
        let place = self.at;
        let at = self.base + place;
        let value = place + 2 * W::BYTES;
        if list.len() < value {
            if list.len() == place {
                return None;
            }
            self.at = list.len();
            return Some(Err(Cut { at }));
        }
        let len = W::number_at(list, place + W::BYTES);
        let next = value + len;
        if list.len() < next {
            self.at = list.len();
            return Some(Err(Cut { at }));
        }
        self.at = next;
        let kind = W::number_at(list, place);
        Some(Ok(Element {
            at,
            kind,
            value: &list[value..next],
        }))
    }
}

// The same where no element is cut off, as in a run that passed its checks.
#[derive(Drop)]
pub struct Whole<'a, W: Width> {
    list: &'a [u8],
    base: usize,
    at: usize,
    width: PhantomData<W>,
    pub ghost within: { at ≤ length list.now },
    pub ghost fits: { base + length list.now < 2 ^ 64 },
    pub ghost uncut: { Uncut (left W.BYTES base list.now at) },
}

impl<'a, W: Width> Whole<'a, W> {
    ghost use Rattle.linkstate.specs.Elements.{elements};
    ghost use Rattle.frames.specs.Uncut.{Uncut};
    ghost use Rattle.frames.specs.Left.{whole_left};

    // Of a list whose first byte is at the offset `base` of its run.
    pub fn new(list: &'a [u8], base: usize) -> Whole<'a, W>
        requires fits { base + length list.now < 2 ^ 64 }
        requires uncut { Uncut (elements W.BYTES base list.now) }
        ensures { whole_left result ≡ elements W.BYTES base list.now }
    {
        Whole {
            list,
            base,
            at: 0,
            width: PhantomData,
        }
    }

    // Of the list that begins at a place of a run and ends with it.
    pub fn behind(run: &'a [u8], at: usize) -> Whole<'a, W>
        requires within { at ≤ length run.now }
        requires uncut { Uncut (elements W.BYTES at (drop at run.now)) }
        ensures { whole_left result ≡ elements W.BYTES at (drop at run.now) }
    {
        Whole {
            list: run,
            base: 0,
            at,
            width: PhantomData,
        }
    }
}

impl<'a, W: Width> Iterator for Whole<'a, W> {
    ghost use Rattle.std.specs.Iterator.{YieldsFirstBy, item_count};
    ghost use Rattle.frames.specs.Left.{of_whole, whole_left};

    type Item = Element<'a>;

    ghost next_gives = { YieldsFirstBy of_whole whole_left };

    ghost remaining = { item_count whole_left };

    fn next(&mut self) -> Option<Element<'a>> {
        let list = self.list;
        let place = self.at;
        if list.len() == place {
            return None;
        }
        let value = place + 2 * W::BYTES;
        let n = W::number_at(list, place + W::BYTES);
        let next = value + n;
        self.at = next;
        let kind = W::number_at(list, place);
        Some(Element {
            at: self.base + place,
            kind,
            value: &list[value..next],
        })
    }
}
