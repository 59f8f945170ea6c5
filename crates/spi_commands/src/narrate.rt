// The command `narrate`.
ghost use Rattle.std.specs.Prelude.{◌≡◌, ◌≤◌, ◌⊎◌, ℕ, List, Option, length, IfOk, OnErr, Ok, Err};
ghost use Rattle.spi_lex.specs.Lexing.{Lexes};
ghost use Rattle.spi_lex.specs.Numbered.{listed};
ghost use Rattle.spi_narrate.specs.Narrations.{Narration as Told};
ghost use Rattle.spi_narrate.specs.Reads.{FailsNarration};
ghost use Rattle.spi_narrate.specs.Views.{narration_of};
ghost use Rattle.spi_narrator.specs.Answers.{IsTold, RefusesNarration as RefusesTelling};
ghost use Rattle.spi_scope.specs.StandsFor.{Meant};
ghost use Rattle.spi_commands.specs.Canonical.{IsPrint};
ghost use Rattle.spi_commands.specs.Narrating.{
  IsNarrationOf,
  SpellsNarration,
  RefusesNarrate,
  NarratesTo,
  SpellsUntold,
  SpellsLongTelling,
};
ghost use Rattle.spi_commands.specs.Reading.{HasTokens, IsUnreadBy};
ghost use Rattle.spi_commands.specs.Spelled.{SpellsFile};

use crate::answer::{Answer, Stop};
use crate::canonical::shown;
use crate::causes::{out_of_scope, refused_for, shown_count, shown_word, unparsed, unspelled};
use crate::reading::Unread;
use bumpalo::Bump;
use spi_honest::faultless_is_tellable;
use spi_lex::{Tokens, one_answer};
use spi_narrate::{NarrateFault, Narration, narration_in, one_first_fault, one_narration};
use spi_narrator::{Answer as Telling, Refusal as Untold, one_telling, tell, told_files_read_back};
use spi_scope::faults_stand_at_nodes;
use spi_tree::Room;
use std::alloc::Global;

/// What `narrate` answers on these bytes, which have these tokens.
pub fn narrated(alloc: Global, bytes: &[u8], tokens: &Tokens<'_>) -> Result<Answer, Stop>
    requires { HasTokens bytes.now (listed tokens.now) }
    ensures ok { IfOk result (λ answer. NarratesTo bytes.now answer.status answer.output.items) }
    ensures err { OnErr result (result ≡ Err Stop.NoMemory) }
{
    let bump = Bump::new(alloc);
    narrated_in(Room { alloc, bump: &bump }, bytes, tokens)
}

/// The same, of a narration whose trees lie in this room.
fn narrated_in(room: Room<'_>, bytes: &[u8], tokens: &Tokens<'_>) -> Result<Answer, Stop>
    requires { HasTokens bytes.now (listed tokens.now) }
    ensures ok { IfOk result (λ answer. NarratesTo bytes.now answer.status answer.output.items) }
    ensures err { OnErr result (result ≡ Err Stop.NoMemory) }
{
    faults_stand_at_nodes();
    let alloc = room.alloc;
    match narration_in(room, tokens) {
        Ok(narration) => told(room, bytes, narration),
        Err(fault) => refused_for(alloc, bytes, &unnarrated(alloc, bytes, tokens, &fault)),
    }
}

/// The refusal of tokens that are those of no faultless narration.
fn unnarrated(alloc: Global, bytes: &[u8], tokens: &Tokens<'_>, fault: &NarrateFault) -> Unread
    requires within { length bytes.now ≤ 16_777_216 }
    requires lexed { Lexes bytes.now (Ok (listed tokens.now)) }
    requires fails { FailsNarration fault.now (listed tokens.now) }
    ensures { IsUnreadBy (RefusesNarrate bytes.now) result }
{
    match fault {
        NarrateFault::Syntax { token } => unparsed(alloc, 20, bytes, tokens, *token),
        NarrateFault::TooDeep { token } => unparsed(alloc, 21, bytes, tokens, *token),
        NarrateFault::UnknownRole { span, word } => shown_word(alloc, 100, *span, word),
        NarrateFault::RoleTwice { span, word } => shown_word(alloc, 101, *span, word),
        NarrateFault::NarrationTooLarge { span, count } => shown_count(alloc, 103, *span, *count),
        NarrateFault::NoMemory => Unread::NoMemory,
    }
}

/// What `narrate` answers on the narration of these bytes.
fn told<'b>(room: Room<'b>, bytes: &[u8], narration: Narration<'b>) -> Result<Answer, Stop>
    requires { SpellsNarration bytes.now (narration_of narration) }
    ensures ok { IfOk result (λ answer. NarratesTo bytes.now answer.status answer.output.items) }
    ensures err { OnErr result (result ≡ Err Stop.NoMemory) }
{
    faults_stand_at_nodes();
    faultless_is_tellable();
    let alloc = room.alloc;
    let telling = tell(room, narration)?;
    match &telling {
        Telling::Told(file) => shown(alloc, bytes, file),
        Telling::Refused(cause) => refused_for(alloc, bytes, &untold(alloc, cause)),
    }
}

/// The refusal of a narration that isn't told, for this cause.
fn untold(alloc: Global, cause: &Untold) -> Unread
    ensures { (bytes : List ℕ) (x : Told) → SpellsNarration bytes x → RefusesTelling x cause.now
        → IsUnreadBy (RefusesNarrate bytes) result }
{
    match cause {
        Untold::NotFree { span, word } => shown_word(alloc, 30, *span, word),
        Untold::Scope(fault) => out_of_scope(alloc, fault),
        Untold::NotReady { span } => unspelled(alloc, 102, span.from),
        Untold::TooLarge { span, nodes } => shown_count(alloc, 104, *span, *nodes),
    }
}

/// Bytes are those of one narration at most, and it is told by one file at most. Where they are refused they are those of
/// none that is told, or its text would be too long. A text that isn't is read as that file.
pub fn narrations_have_one_answer()
    ensures one { (bytes : List ℕ) (x y : Told) → IsNarrationOf bytes x → IsNarrationOf bytes y → x ≡ y }
    ensures told { (x : Told) (told other : Meant) → IsTold x told → IsTold x other → told ≡ other }
    ensures untold { (bytes : List ℕ) (number : ℕ) (offset : Option ℕ) (shown : List ℕ)
        → RefusesNarrate bytes number offset shown → SpellsUntold bytes ⊎ SpellsLongTelling bytes }
    ensures reads { (bytes : List ℕ) (x : Told) (told : Meant) (text : List ℕ)
        → SpellsNarration bytes x → IsTold x told → IsPrint told text → SpellsFile text told }
{
    one_answer();
    one_narration();
    one_first_fault();
    one_telling();
    faultless_is_tellable();
    told_files_read_back();
}
