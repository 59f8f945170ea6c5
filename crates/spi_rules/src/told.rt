//! The rule with a name, told by what the name's bytes spell, four at a time. The low byte of such a number stands first.

ghost use Rattle.std.specs.Prelude.{◌≡◌, ◌+◌, ◌≤◌, length, take, drop, IfSome};
ghost use Rattle.std.specs.Int.{to_le_bytes, w32};
ghost use Rattle.spi_rules.specs.Rule.{rule_spelled};
ghost use Rattle.spi_rules.specs.Fours.{short_word, long_word};

use crate::rule::Rule;

/// The number that the four bytes from here on spell.
#[inline(always)]
fn four(bytes: &[u8], at: usize) -> u32
    requires { at + 4 ≤ length bytes.now }
    ensures { to_le_bytes w32 result ≡ take 4 (drop at bytes.now) }
{
    u32::from_le_bytes([bytes[at], bytes[at + 1], bytes[at + 2], bytes[at + 3]])
}

/// The rule whose name has so many bytes, of which the first four and the last four spell these numbers.
#[inline(always)]
fn told_of_short(count: usize, first: u32, last: u32) -> Option<Rule>
    ensures { IfSome result (λ rule. rule_spelled rule ≡ short_word count first last) }
{
    match last {
        0x656d_614e if (first == 0x4e67_734d) & (count == 7) => Some(Rule::MsgName),
        0x7469_6e55 if (first == 0x5567_734d) & (count == 7) => Some(Rule::MsgUnit),
        0x7269_6150 if (first == 0x5067_734d) & (count == 7) => Some(Rule::MsgPair),
        0x6c6e_4967 if (first == 0x4967_734d) & (count == 6) => Some(Rule::MsgInl),
        0x6e55_6c6e if (first == 0x4967_734d) & (count == 8) => Some(Rule::MsgInlUn),
        0x726e_4967 if (first == 0x4967_734d) & (count == 6) => Some(Rule::MsgInr),
        0x6e55_726e if (first == 0x4967_734d) & (count == 8) => Some(Rule::MsgInrUn),
        0x636e_4567 if (first == 0x4567_734d) & (count == 6) => Some(Rule::MsgEnc),
        0x6e55_636e if (first == 0x4567_734d) & (count == 8) => Some(Rule::MsgEncUn),
        0x6873_6148 if (first == 0x4867_734d) & (count == 7) => Some(Rule::MsgHash),
        0x706f_7453 if (first == 0x636f_7250) & (count == 8) => Some(Rule::ProcStop),
        0x7475_4f63 if (first == 0x636f_7250) & (count == 7) => Some(Rule::ProcOut),
        0x6e49_636f if (first == 0x636f_7250) & (count == 6) => Some(Rule::ProcIn),
        0x6573_6143 if (first == 0x636f_7250) & (count == 8) => Some(Rule::ProcCase),
        0x646e_4563 if (first == 0x636f_7250) & (count == 7) => Some(Rule::ProcEnd),
        0x7473_6143 if (first == 0x636f_7250) & (count == 8) => Some(Rule::ProcCast),
        0x7765_4e63 if (first == 0x636f_7250) & (count == 7) => Some(Rule::ProcNew),
        0x7261_5063 if (first == 0x636f_7250) & (count == 7) => Some(Rule::ProcPar),
        0x6275_5363 if (first == 0x636f_7250) & (count == 7) => Some(Rule::ProcSub),
        _ => None,
    }
}

/// The rule for processes whose name has so many bytes, of which the four behind the first and the last four spell these
/// numbers.
fn told_of_process(count: usize, second: u32, last: u32) -> Option<Rule>
    ensures { IfSome result (λ rule. rule_spelled rule ≡ long_word count 0x636f_7250 second last) }
{
    match second {
        0x6570_6552 if (last == 0x7461_6570) & (count == 10) => Some(Rule::ProcRepeat),
        0x696c_7053 if (last == 0x7469_6c70) & (count == 9) => Some(Rule::ProcSplit),
        0x696c_7053 if (last == 0x6e55_7469) & (count == 11) => Some(Rule::ProcSplitUn),
        0x6374_614d if (last == 0x6863_7461) & (count == 9) => Some(Rule::ProcMatch),
        0x6374_614d if (last == 0x6e55_6863) & (count == 11) => Some(Rule::ProcMatchUn),
        0x6573_6143 if (last == 0x6e55_6573) & (count == 10) => Some(Rule::ProcCaseUn),
        0x7263_6544 if (last == 0x7470_7972) & (count == 11) => Some(Rule::ProcDecrypt),
        0x6365_6843 if (last == 0x6b63_6568) & (count == 9) => Some(Rule::ProcCheck),
        0x6365_6843 if (last == 0x6e55_6b63) & (count == 11) => Some(Rule::ProcCheckUn),
        0x6967_6542 if (last == 0x6e69_6765) & (count == 9) => Some(Rule::ProcBegin),
        0x4d64_6e45 if (last == 0x796e_614d) & (count == 11) => Some(Rule::ProcEndMany),
        0x7473_6143 if (last == 0x6e55_7473) & (count == 10) => Some(Rule::ProcCastUn),
        _ => None,
    }
}

/// The rule whose name has so many bytes, of which the first four, the next four and the last four spell these numbers.
fn told_of_long(count: usize, first: u32, second: u32, last: u32) -> Option<Rule>
    ensures { IfSome result (λ rule. rule_spelled rule ≡ long_word count first second last) }
{
    match first {
        0x636f_7250 => told_of_process(count, second, last),
        0x5567_734d if (second == 0x5574_696e) & (last == 0x6e55_7469) & (count == 9) => Some(
            Rule::MsgUnitUn,
        ),
        0x5067_734d if (second == 0x5572_6961) & (last == 0x6e55_7269) & (count == 9) => Some(
            Rule::MsgPairUn,
        ),
        _ => None,
    }
}

/// The rule with this name. One with more than twelve bytes is overlooked.
#[inline(always)]
pub(crate) fn told(name: &[u8]) -> Option<Rule>
    ensures { IfSome result (λ rule. rule_spelled rule ≡ name.now) }
{
    let count = name.len();
    if count < 4 {
        return None;
    }
    let first = four(name, 0);
    let last = four(name, count - 4);
    if count <= 8 {
        return told_of_short(count, first, last);
    }
    if 12 < count {
        return None;
    }
    told_of_long(count, first, four(name, 4), last)
}
