// What an IS-IS type says of an element of run A.

#![tactic(auto)]

ghost use Rattle.std.specs.Prelude.{◌≡◌};
ghost use Rattle.isis_kinds.specs.Rules.{rule_of_type};

use kinds::{Kind, Rule, Size};

// The rule of an IS-IS type.
pub fn classify_type(t: usize) -> Rule
    ensures { result ≡ rule_of_type t }
{
    match t {
        3 => kinds::rule_of(Kind::Application(0), Size::Exactly(4), 1088),
        9 => kinds::rule_of(Kind::Link(0), Size::Exactly(4), 1089),
        10 => kinds::rule_of(Kind::Link(1), Size::Exactly(4), 1090),
        11 => kinds::rule_of(Kind::Link(2), Size::Exactly(32), 1091),
        14 => kinds::rule_of(Kind::Application(9), Size::FoursWithin(4, 252), 1173),
        16 => kinds::rule_of(Kind::Asla, Size::Any, 1122),
        18 => kinds::rule_of(Kind::Application(1), Size::Exactly(3), 1092),
        33..=39 => kinds::range_rule(t - 31, t == 34, (t + 1081) as u16),
        _ => kinds::rule_of(Kind::Unknown, Size::Any, 0),
    }
}
