// The top call: from words and bytes to a status and what is written.
ghost use Rattle.std.specs.Prelude.{Option, ◌≡◌, ◌≢◌, ◌+◌, ◌≤◌, ◌↔◌, ◌⊎◌, ℕ, List, [], map, string_bytes, IfOk, IfSome, OnOk, OnErr, IsErrOf, Err, None, Some, false, true, vec_len};
ghost use Rattle.std.specs.Io.KnownBytes.{Appends};
ghost use Rattle.spi_io.specs.Causes.{Rose, TakesUpTo};
ghost use Rattle.spi_scope.specs.StandsFor.{Meant};
ghost use Rattle.spi_play.specs.Way.{seen_of};
ghost use Rattle.spi_commands.specs.Answering.{KeepPromises};
ghost use Rattle.spi_commands.specs.Asked.{asked, is_play, reads_input, AreNumbersKnown};
ghost use Rattle.spi_commands.specs.Spelled.{limit, SpellsFile, SpellsNone, IsManySafe};
ghost use Rattle.spi_commands.specs.Refusals.{Refuses};
ghost use Rattle.spi_commands.specs.Checking.{IsExact};
ghost use Rattle.spi_commands.specs.Playing.{LeavesPlayers};
ghost use Rattle.spi_commands.specs.Commands.{Promise};
ghost use Rattle.spi_commands.specs.Run.{Wants, IsAnswered, Ends, Completes, IsUndisturbed, TakesInput};

use crate::afterwards::Afterwards;
use crate::answer::{Answer, Stop, made};
use crate::answering::answers;
use crate::asked::{Command, asked_of};
use crate::load::loads;
use crate::narrate::narrations_have_one_answer;
use crate::status::Status;
use crate::text::take_text;
use crate::words::USAGE;
use spi_deriv::one_canonical;
use spi_io::{Put, Sink, Source, put_all};
use spi_know::keys_stay_unknown;
use spi_lex::one_answer;
use spi_parse::one_placed_tree;
use spi_play::Player;
use spi_scope::one_or_other;
use spi_sound::{derivable_is_many_safe, derivable_is_safe};
use spi_spell::{canonical_reads_back, derivation_joins, schedule_joins};
use std::alloc::Global;

/// Does what the words ask for: reads a file from the source, writes the answer to the sink, and says how
/// it ended. The whole output is made first and written last. Only a play asks the players. Where the process ends
/// afterwards, a file and the processes of its tree are left for it to take along.
pub fn run<S: Source, K: Sink>(
    alloc: Global,
    afterwards: Afterwards,
    words: &[String],
    source: &mut S,
    sink: &mut K,
    players: &mut Vec<Box<dyn Player>>,
) -> Status
    // The headline, where the source tells its bytes, no count of faults rises and memory doesn't run out.
    ensures headline { asked (map string_bytes words.now) (vec_len players.old) ≡ Some Command.Check
        → IfSome (S.left source.old) (λ bytes.
        ¬ Rose (S.faults source.old) (S.faults source.new) → ¬ Rose (K.faults sink.old) (K.faults sink.new)
        → result ≢ Status.NoMemory → IsExact bytes (K.holds sink.old) (K.holds sink.new) result) }

    // And after a yes each endmany event has an earlier begin event.
    ensures many_to_one { asked (map string_bytes words.now) (vec_len players.old) ≡ Some Command.Check
        → IfSome (S.left source.old) (λ bytes. result ≡ Status.Yes → IsManySafe bytes) }

    // What each command promises, under the same conditions.
    ensures promise { (command : Command)
        → asked (map string_bytes words.now) (vec_len players.old) ≡ Some command
        → IfSome (S.left source.old) (λ bytes.
        IsUndisturbed (S.faults source.old) (S.faults source.new) (K.faults sink.old) (K.faults sink.new)
        result
        → Promise command bytes
        (seen_of (λ b. times b) (λ b. way b) players.old.items)
        (seen_of (λ b. times b) (λ b. way b) players.new.items)
        (K.holds sink.old) (K.holds sink.new) result) }

    // Where the source tells its bytes, the status is the one that these words and bytes ask for, and its
    // output is appended.
    ensures answer { IfSome (S.left source.old) (λ bytes.
        Ends (Wants (asked (map string_bytes words.now) (vec_len players.old)) bytes
        (seen_of (λ b. times b) (λ b. way b) players.old.items)
        (seen_of (λ b. times b) (λ b. way b) players.new.items))
        (K.holds sink.old) (K.holds sink.new) result) }
    ensures complete { IfSome (S.left source.old) (λ bytes.
        ¬ Rose (S.faults source.old) (S.faults source.new) → ¬ Rose (K.faults sink.old) (K.faults sink.new)
        → Completes (Wants (asked (map string_bytes words.now) (vec_len players.old)) bytes
        (seen_of (λ b. times b) (λ b. way b) players.old.items)
        (seen_of (λ b. times b) (λ b. way b) players.new.items))
        (K.holds sink.old) (K.holds sink.new) result) }

    // Whatever the source tells: the words alone decide on the usage line, a command without input answers,
    // and reads nothing.
    ensures usage { result ≡ Status.Usage
        → (asked (map string_bytes words.now) (vec_len players.old) ≡ None) }
    ensures no_usage { (asked (map string_bytes words.now) (vec_len players.old) ≡ None)
        → (result ≡ Status.Usage) ⊎ (result ≡ Status.WriteFault) ⊎ (result ≡ Status.NoMemory) }
    ensures inputless { reads_input (asked (map string_bytes words.now) (vec_len players.old)) ≡ false
        → (source.new ≡ source.old)
        × Ends (Wants (asked (map string_bytes words.now) (vec_len players.old)) [] [] [])
        (K.holds sink.old) (K.holds sink.new) result }

    // A fault has its cause, with a fault of reading or of memory nothing is written, and what was held stays
    // in front.
    ensures read_fault { result ≡ Status.ReadFault → Rose (S.faults source.old) (S.faults source.new) }
    ensures failed_reads { result ≢ Status.ReadFault → S.failed_reads source.new ≡ S.failed_reads source.old }
    ensures write_fault { result ≡ Status.WriteFault → Rose (K.faults sink.old) (K.faults sink.new) }
    ensures unwritten { (result ≡ Status.ReadFault) ⊎ (result ≡ Status.NoMemory) → sink.new ≡ sink.old }
    ensures in_front { (output : List ℕ) × Appends (K.holds sink.old) (K.holds sink.new) output }

    // What is read is at the front of what was left, and is gone: all of it, or one byte more than an input
    // may have.
    ensures taken { TakesUpTo (S.left source.old) (S.left source.new) (limit + 1) }
    ensures whole { reads_input (asked (map string_bytes words.now) (vec_len players.old)) ≡ true
        → result ≢ Status.ReadFault → result ≢ Status.NoMemory
        → TakesInput (S.left source.old) (S.left source.new) }
    ensures reads { S.reads source.new ≤ S.reads source.old + limit + 2 }

    // Only a play asks the players, else they are as they were, and where a read failed. Where a play's memory
    // runs out they are as they were, or as it left them.
    ensures players { (is_play (asked (map string_bytes words.now) (vec_len players.old)) ≡ false)
        ⊎ (result ≡ Status.ReadFault) → players.new ≡ players.old }
    ensures left { (most : ℕ) (only : Option ℕ)
        → asked (map string_bytes words.now) (vec_len players.old) ≡ Some (Command.Play most only)
        → result ≡ Status.NoMemory → IfSome (S.left source.old) (λ bytes. LeavesPlayers most only bytes
        (seen_of (λ b. times b) (λ b. way b) players.old.items)
        (seen_of (λ b. times b) (λ b. way b) players.new.items)) }
{
    one_file();
    derivable_is_many_safe();
    answers_keep_promises();
    run_for(alloc, afterwards, words, source, sink, players)
}

/// What a command answers keeps what it promises.
fn answers_keep_promises()
    ensures { KeepPromises }
{
    one_answer();
    one_file();
    refused_is_none();
    derivable_is_safe();
    derivable_is_many_safe();
    one_canonical();
    derivation_joins();
    schedule_joins();
    canonical_reads_back();
    keys_stay_unknown();
    narrations_have_one_answer();
}

/// Bytes spell one file at most.
pub fn one_file()
    ensures { (bytes : List ℕ) (file other : Meant)
        → SpellsFile bytes file → SpellsFile bytes other → file ≡ other }
{
    one_answer();
    one_placed_tree();
    one_or_other();
}

/// Bytes that are refused spell no file.
pub fn refused_is_none()
    ensures { (bytes : List ℕ) (number : ℕ) (offset : Option ℕ) (shown : List ℕ)
        → Refuses bytes number offset shown → SpellsNone bytes }
{
    one_answer();
    one_placed_tree();
    one_or_other();
}

/// Does what the words ask for.
fn run_for<S: Source, K: Sink>(
    alloc: Global,
    afterwards: Afterwards,
    words: &[String],
    source: &mut S,
    sink: &mut K,
    players: &mut Vec<Box<dyn Player>>,
) -> Status
    ensures within { result ≢ Status.NoMemory
        → IfSome (asked (map string_bytes words.now) (vec_len players.old))
        (λ command. AreNumbersKnown (vec_len players.old) command) }
    ensures answer { IfSome (S.left source.old) (λ bytes.
        Ends (Wants (asked (map string_bytes words.now) (vec_len players.old)) bytes
        (seen_of (λ b. times b) (λ b. way b) players.old.items)
        (seen_of (λ b. times b) (λ b. way b) players.new.items))
        (K.holds sink.old) (K.holds sink.new) result) }
    ensures usage { result ≡ Status.Usage
        → (asked (map string_bytes words.now) (vec_len players.old) ≡ None) }
    ensures no_usage { (asked (map string_bytes words.now) (vec_len players.old) ≡ None)
        → (result ≡ Status.Usage) ⊎ (result ≡ Status.WriteFault) ⊎ (result ≡ Status.NoMemory) }
    ensures inputless { reads_input (asked (map string_bytes words.now) (vec_len players.old)) ≡ false
        → (source.new ≡ source.old)
        × Ends (Wants (asked (map string_bytes words.now) (vec_len players.old)) [] [] [])
        (K.holds sink.old) (K.holds sink.new) result }
    ensures read_fault { result ≡ Status.ReadFault → Rose (S.faults source.old) (S.faults source.new) }
    ensures failed_reads { result ≢ Status.ReadFault → S.failed_reads source.new ≡ S.failed_reads source.old }
    ensures write_fault { result ≡ Status.WriteFault → Rose (K.faults sink.old) (K.faults sink.new) }
    ensures unwritten { (result ≡ Status.ReadFault) ⊎ (result ≡ Status.NoMemory) → sink.new ≡ sink.old }
    ensures in_front { (output : List ℕ) × Appends (K.holds sink.old) (K.holds sink.new) output }
    ensures taken { TakesUpTo (S.left source.old) (S.left source.new) (limit + 1) }
    ensures whole { reads_input (asked (map string_bytes words.now) (vec_len players.old)) ≡ true
        → result ≢ Status.ReadFault → result ≢ Status.NoMemory
        → TakesInput (S.left source.old) (S.left source.new) }
    ensures reads { S.reads source.new ≤ S.reads source.old + limit + 2 }
    ensures players { (is_play (asked (map string_bytes words.now) (vec_len players.old)) ≡ false)
        ⊎ (result ≡ Status.ReadFault) → players.new ≡ players.old }
    ensures left { (most : ℕ) (only : Option ℕ)
        → asked (map string_bytes words.now) (vec_len players.old) ≡ Some (Command.Play most only)
        → result ≡ Status.NoMemory → IfSome (S.left source.old) (λ bytes. LeavesPlayers most only bytes
        (seen_of (λ b. times b) (λ b. way b) players.old.items)
        (seen_of (λ b. times b) (λ b. way b) players.new.items)) }
{
    let Ok(command) = asked_of(alloc, words, players.len()) else {
        return Status::NoMemory;
    };
    match answer_to(alloc, afterwards, command, source, players) {
        Ok(answer) => match put_all(sink, &answer.output) {
            Ok(()) => answer.status,
            Err(Put::WriteFault) => Status::WriteFault,
        },
        Err(Stop::ReadFault) => Status::ReadFault,
        Err(Stop::NoMemory) => Status::NoMemory,
    }
}

/// What the command asks for, and what is to be written.
fn answer_to<S: Source>(
    alloc: Global,
    afterwards: Afterwards,
    command: Option<Command>,
    source: &mut S,
    players: &mut Vec<Box<dyn Player>>,
) -> Result<Answer, Stop>
    requires { IfSome command (λ command. AreNumbersKnown (vec_len players.old) command) }
    ensures answer { IfOk result (λ answer. IfSome (S.left source.old) (λ bytes. Wants command bytes
        (seen_of (λ b. times b) (λ b. way b) players.old.items)
        (seen_of (λ b. times b) (λ b. way b) players.new.items)
        answer.status answer.output.items)) }
    ensures answered { IfOk result (λ answer. IsAnswered answer.status) }
    ensures usage { IfOk result (λ answer. (answer.status ≡ Status.Usage) ↔ (command ≡ None)) }
    ensures inputless { reads_input command ≡ false
        → IfOk result (λ answer. Wants command [] [] [] answer.status answer.output.items) }
    ensures unread { reads_input command ≡ false → source.new ≡ source.old }
    ensures memory { reads_input command ≡ false → OnErr result (result ≡ Err Stop.NoMemory) }
    ensures read_fault { IsErrOf result Stop.ReadFault → Rose (S.faults source.old) (S.faults source.new) }
    ensures failed_reads { ¬ IsErrOf result Stop.ReadFault
        → S.failed_reads source.new ≡ S.failed_reads source.old }
    ensures taken { TakesUpTo (S.left source.old) (S.left source.new) (limit + 1) }
    ensures whole { reads_input command ≡ true
        → OnOk result (TakesInput (S.left source.old) (S.left source.new)) }
    ensures reads { S.reads source.new ≤ S.reads source.old + limit + 2 }
    ensures players { (is_play command ≡ false) ⊎ IsErrOf result Stop.ReadFault → players.new ≡ players.old }
    ensures left { (most : ℕ) (only : Option ℕ) → command ≡ Some (Command.Play most only)
        → IsErrOf result Stop.NoMemory → IfSome (S.left source.old) (λ bytes. LeavesPlayers most only bytes
        (seen_of (λ b. times b) (λ b. way b) players.old.items)
        (seen_of (λ b. times b) (λ b. way b) players.new.items)) }
{
    match command {
        None => made(alloc, Status::Usage, USAGE),
        Some(asked) => match asked {
            Command::Load { sessions } => loads(alloc, afterwards, sessions),
            _ => answers(alloc, afterwards, asked, take_text(alloc, source)?, players),
        },
    }
}
