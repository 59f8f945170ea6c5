// The parts of files by example, with the number of the token behind each.

ghost use Rattle.std.specs.Prelude.{◌≡◌, ◌≤◌, ◌⊎◌, ◌==◌, length, IfOk};
ghost use Rattle.spi_lex.specs.Lexing.{kinds_of};
ghost use Rattle.spi_tree.specs.Formed.{AreWordsFit};

use super::samples::{NoMemory, TextQuestion, each};
use bumpalo::Bump;
use spi_lex::{LexFault, Token, is_version_2, lex};
use spi_parse::{ParseFault, decl_at, message_at, parse, process_at, type_at};
use spi_tree::{Room, Tree, tokens_of};
use std::alloc::Global;

/// A kind of part.
#[derive(Clone, Copy)]
enum Part {
    Type,
    Message,
    Process,
    Declaration,
}

/// The tokens of a text, the number of the first behind its version, and the version.
fn lexed(alloc: Global, text: &str) -> Result<(Vec<Token>, u32, u32), LexFault>
    ensures size { IfOk result (λ x. length x.0.items ≤ 16_777_216) }
    ensures start { IfOk result (λ x. x.1 ≤ length x.0.items) }
    ensures known { IfOk result (λ x. (x.2 ≡ 1) ⊎ (x.2 ≡ 2)) }
    ensures words { IfOk result (λ x. AreWordsFit (x.2 == 2) (kinds_of x.0.items)) }
{
    if text.len() > 16_777_216 {
        return Err(LexFault::NoMemory);
    }
    let tokens = lex(alloc, text.as_bytes())?;
    if tokens.len() > 16_777_216 {
        return Err(LexFault::NoMemory);
    }
    if is_version_2(&tokens) {
        Ok((tokens, 3, 2))
    } else {
        Ok((tokens, 0, 1))
    }
}

/// 1000 and the number of the token at fault.
fn fault_number(fault: ParseFault) -> Option<u64> {
    match fault {
        ParseFault::Syntax { token } => Some(token as u64 + 1000),
        _ => None,
    }
}

/// The number of the token behind a part, or of the fault.
fn number_of<T: Drop>(answer: Result<(T, u32), ParseFault>) -> Option<u64> {
    match answer {
        Ok((_, to)) => Some(to as u64),
        Err(fault) => fault_number(fault),
    }
}

impl TextQuestion for Part {
    fn answer_to_text(self, alloc: Global, text: &str) -> Result<Option<u64>, NoMemory> {
        let Ok((tokens, from, version)) = lexed(alloc, text) else {
            return Ok(None);
        };
        let bump = Bump::new(alloc);
        let room = Room { alloc, bump: &bump };
        Ok(match self {
            Part::Type => number_of(type_at(room, &tokens, from, version)),
            Part::Message => number_of(message_at(room, &tokens, from, version)),
            Part::Process => number_of(process_at(room, &tokens, from, version)),
            Part::Declaration => number_of(decl_at(room, &tokens, from, version)),
        })
    }
}

#[test]
fn types_and_messages_end_behind_their_last_token(rt: HostRuntime) {
    let types = [
        ("Un )", 1),
        ("(a: Un, b: Key(T), Nonce [end a, check (a, b)])", 25),
        ("((a + Un) + ())", 10),
    ];
    each(&rt, Part::Type, &types);
    let messages = [("(a, (), (b, c))", 12), ("{inl a}inr b", 6)];
    each(&rt, Part::Message, &messages);
}

#[test]
fn processes_and_declarations_end_behind_their_last_token(rt: HostRuntime) {
    let processes = [
        ("out a b; stop | out a b | stop;", 11),
        ("inp a (x: Un); repeat inp a (y: Un); stop", 18),
        (
            "split a is (x: Un, y: Un); match a is (x: Un = b, y: Un); stop",
            29,
        ),
        ("case a is inl (x: Un); stop is inr (y: Un); stop", 20),
        (
            "decrypt a is {x: Un}b; check a is b; begin a; end a; stop",
            22,
        ),
    ];
    each(&rt, Part::Process, &processes);
    let declarations = [("free a, b; process stop", 5), ("type T = Key(U); free", 8)];
    each(&rt, Part::Declaration, &declarations);
}

#[test]
fn what_version_2_has_is_read_in_it_alone(rt: HostRuntime) {
    let nonce = [("version 2; Nonce [many a]", 8), ("Nonce [many a]", 1002)];
    each(&rt, Part::Type, &nonce);
    let hash = [("version 2; hash(hash(a))", 10), ("hash(a)", 1)];
    each(&rt, Part::Message, &hash);
    let ends = "version 2; cast a is (x: Un); new (x: Un); endmany a; stop";
    each(&rt, Part::Process, &[(ends, 23)]);
    let many = "version 2; type T = Nonce [many a];";
    each(&rt, Part::Declaration, &[(many, 12)]);
}

#[test]
fn a_fault_is_at_its_token(rt: HostRuntime) {
    each(&rt, Part::Type, &[("(a: Un)", 1004)]);
    each(&rt, Part::Message, &[("(a)", 1002)]);
    each(&rt, Part::Process, &[("begin a stop", 1002)]);
    each(&rt, Part::Declaration, &[("free a stop", 1002)]);
}

/// How many tokens the tree of a whole file has, or the number of the fault.
#[derive(Clone, Copy)]
struct TreeTokens;

/// How many tokens a tree has, or the number of the fault.
fn tokens_in(alloc: Global, parsed: Result<Tree, ParseFault>) -> Result<Option<u64>, LexFault> {
    match parsed {
        Ok(tree) => match tokens_of(alloc, &tree) {
            Ok(kinds) => Ok(Some(kinds.len() as u64)),
            Err(_) => Err(LexFault::NoMemory),
        },
        Err(fault) => Ok(fault_number(fault)),
    }
}

fn parsed(alloc: Global, text: &str) -> Result<Option<u64>, LexFault> {
    if text.len() > 16_777_216 {
        return Err(LexFault::NoMemory);
    }
    let end = text.len() as u32;
    let tokens = lex(alloc, text.as_bytes())?;
    let bump = Bump::new(alloc);
    let room = Room { alloc, bump: &bump };
    tokens_in(alloc, parse(room, &tokens, end))
}

impl TextQuestion for TreeTokens {
    fn answer_to_text(self, alloc: Global, text: &str) -> Result<Option<u64>, NoMemory> {
        match parsed(alloc, text) {
            Ok(number) => Ok(number),
            Err(_) => Ok(None),
        }
    }
}

#[test]
fn files_have_the_tokens_of_their_trees(rt: HostRuntime) {
    let scheduled =
        "process out a a opponent stop schedule act 0; talk 1 2; derivation ProcOut MsgName MsgName";
    let hashed = "version 2; free a; process new (k: Key(Un)); out a hash(k)";
    let files = [
        ("process stop", 2),
        (scheduled, 18),
        ("process stop derivation ProcSub [check #1] ProcStop", 10),
        (hashed, 23),
        ("process begin (), stop", 1004),
    ];
    each(&rt, TreeTokens, &files);
}
