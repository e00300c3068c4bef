// What a type or a code says of an element: its kind, the lengths that its value may have, and its BGP-LS code.

#![tactic(auto)]

ghost use Rattle.std.specs.Prelude.{◌≡◌, cond};
ghost use Rattle.linkstate.specs.Kinds.{form_of};
ghost use Rattle.kinds.specs.Rules.{rule, rule_of_code, is_known, is_link, is_of_sets, fits_in, told_form};
ghost use Rattle.kinds.specs.declared.Kind.TheVariants.{Application};
ghost use Rattle.kinds.specs.declared.Size.TheVariants.{Exactly};

// A kind by its row: one of the link's three bandwidths, or one of the ten kinds of an application other than SRLG, both ascending by code.
#[derive(Clone, Copy)]
pub enum Kind {
    Link(usize),
    Application(usize),
    Srlg,
    Asla,
    Unknown,
}

impl Kind {
    // Whether it is one of the fourteen that are asked for.
    #[tactic(auto, unfolding(crate::specs::Rules::is_known))]
    pub fn is_known(self) -> bool
        ensures { result ≡ is_known self }
    {
        match self {
            Kind::Link(_) | Kind::Application(_) | Kind::Srlg => true,
            Kind::Asla | Kind::Unknown => false,
        }
    }

    // Whether it is a bandwidth of the link.
    #[tactic(auto, unfolding(crate::specs::Rules::is_link))]
    pub fn is_link(self) -> bool
        ensures { result ≡ is_link self }
    {
        match self {
            Kind::Link(_) => true,
            Kind::Application(_) | Kind::Srlg | Kind::Asla | Kind::Unknown => false,
        }
    }

    // Whether it is one of the eleven of applications.
    #[tactic(auto, unfolding(crate::specs::Rules::is_of_sets))]
    pub fn is_of_applications(self) -> bool
        ensures { result ≡ is_of_sets self }
    {
        match self {
            Kind::Application(_) | Kind::Srlg => true,
            Kind::Link(_) | Kind::Asla | Kind::Unknown => false,
        }
    }
}

// The lengths that a value may have.
#[derive(Clone, Copy)]
pub enum Size {
    Exactly(usize),
    FoursFrom(usize),
    FoursWithin(usize, usize),
    Any,
}

// What a value reads as: a whole number, two numbers, a float, its place and length, or a count of SRLGs.
#[derive(Clone, Copy)]
pub enum Form {
    WholeNumber,
    TwoNumbers,
    Float,
    PlaceAndLength,
    SrlgCount,
}

#[derive(Clone, Copy)]
pub struct Rule {
    pub kind: Kind,
    pub size: Size,
    pub code: u16,
}

// A rule by its kind, the lengths of its values, and its code.
pub fn rule_of(kind: Kind, size: Size, code: u16) -> Rule
    ensures { result ≡ rule kind size code }
{
    Rule { kind, size, code }
}

// The rule of a kind of codes 1114 to 1120 by its row: two numbers in eight bytes, or one number in four.
pub fn range_rule(row: usize, two: bool, code: u16) -> Rule
    ensures { result ≡ rule (Application row) (Exactly (cond two 8 4)) code }
{
    let bytes = if two { 8 } else { 4 };
    Rule {
        kind: Kind::Application(row),
        size: Size::Exactly(bytes),
        code,
    }
}

// The rule of a BGP-LS code.
pub fn classify_code(c: usize) -> Rule
    ensures { result ≡ rule_of_code c }
{
    match c {
        1088 => rule_of(Kind::Application(0), Size::Exactly(4), 1088),
        1089 => rule_of(Kind::Link(0), Size::Exactly(4), 1089),
        1090 => rule_of(Kind::Link(1), Size::Exactly(4), 1090),
        1091 => rule_of(Kind::Link(2), Size::Exactly(32), 1091),
        1092 => rule_of(Kind::Application(1), Size::Exactly(4), 1092),
        1096 => rule_of(Kind::Srlg, Size::FoursFrom(0), 1096),
        1122 => rule_of(Kind::Asla, Size::Any, 1122),
        1173 => rule_of(Kind::Application(9), Size::FoursFrom(4), 1173),
        1114..=1120 => range_rule(c - 1112, c == 1115, c as u16),
        _ => rule_of(Kind::Unknown, Size::Any, 0),
    }
}

// Whether a value of n bytes has one of these lengths.
#[tactic(auto, unfolding(crate::specs::Rules::fits_in, linkstate::specs::Kinds::fits))]
pub fn fits(size: Size, n: usize) -> bool
    ensures { result ≡ fits_in size n }
{
    match size {
        Size::Exactly(k) => n == k,
        Size::FoursFrom(least) => n % 4 == 0 && least <= n,
        Size::FoursWithin(least, most) => n % 4 == 0 && least <= n && n <= most,
        Size::Any => true,
    }
}

// What a value of a BGP-LS code reads as.
pub fn form_of(c: usize) -> Form
    ensures { told_form result ≡ form_of c }
{
    match c {
        1089 => Form::Float,
        1090 => Form::Float,
        1091 => Form::PlaceAndLength,
        1096 => Form::SrlgCount,
        1115 => Form::TwoNumbers,
        1173 => Form::PlaceAndLength,
        1118..=1120 => Form::Float,
        _ => Form::WholeNumber,
    }
}
