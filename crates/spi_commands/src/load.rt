// The command `load`.
ghost use Rattle.std.specs.Prelude.{◌≡◌, ◌≢◌, ◌≤◌, IfOk, OnErr, IfSome, Err, length};
ghost use Rattle.spi_tree.specs.Trees as t;
ghost use Rattle.spi_gen.specs.Sessions.{IsSessions};
ghost use Rattle.spi_rules.specs.Deriv.{rule_uses};
ghost use Rattle.spi_scope.specs.Files.{meant};
ghost use Rattle.spi_scope.specs.StandsFor.{StandsFor};
ghost use Rattle.spi_commands.specs.Loading.{LoadsTo};
ghost use Rattle.spi_commands.specs.Run.{IsAnswered};

use crate::afterwards::Afterwards;
use crate::answer::{Answer, Stop};
use crate::status::Status;
use bumpalo::Bump;
use spi_deriv::{derive, one_canonical};
use spi_gen::sessions;
use spi_report::loaded;
use spi_rules::Deriv;
use spi_scope::{File, ScopeFault, resolve};
use spi_tree::Room;
use std::alloc::Global;

/// What `load` answers for so many sessions: it makes their file, resolves it, derives its process, and tells the nodes of
/// the file and the rules of the derivation.
pub fn loads(alloc: Global, afterwards: Afterwards, k: u32) -> Result<Answer, Stop>
    requires { (1 ≤ k) × (k ≤ 500) }
    ensures ok { IfOk result (λ answer. LoadsTo k answer.status answer.output.items) }
    ensures answered { IfOk result (λ answer. IsAnswered answer.status × (answer.status ≢ Status.Usage)) }
    ensures err { OnErr result (result ≡ Err Stop.NoMemory) }
{
    let file = sessions_file(alloc, k)?;
    let answer = judged(alloc, k, &file);
    afterwards.let_go(file);
    answer
}

/// The file of so many sessions. Its tree is given back.
fn sessions_file(alloc: Global, k: u32) -> Result<File, Stop>
    requires { (1 ≤ k) × (k ≤ 500) }
    ensures file { IfOk result
        (λ file. (tree : t.File) × IsSessions k tree × StandsFor tree (meant file)) }
    ensures err { OnErr result (result ≡ Err Stop.NoMemory) }
{
    let bump = Bump::new(alloc);
    resolved_sessions(Room { alloc, bump: &bump }, k)
}

/// The file of so many sessions, whose tree lies in this room.
fn resolved_sessions(room: Room<'_>, k: u32) -> Result<File, Stop>
    requires { (1 ≤ k) × (k ≤ 500) }
    ensures file { IfOk result
        (λ file. (tree : t.File) × IsSessions k tree × StandsFor tree (meant file)) }
    ensures err { OnErr result (result ≡ Err Stop.NoMemory) }
{
    let tree = sessions(room, k)?;
    match resolve(room.alloc, &tree) {
        Ok(file) => Ok(file),
        Err(fault) => Err(stopped(&fault)),
    }
}

/// Memory ran out: the file of so many sessions has no other fault.
fn stopped(_fault: &ScopeFault) -> Stop
    requires { _fault.now ≡ ScopeFault.NoMemory }
    ensures { result ≡ Stop.NoMemory }
{
    Stop::NoMemory
}

/// How many rules a derivation uses, and 0 where there is none.
fn rules(d: &Option<Deriv>) -> u64
    ensures { IfSome d.now (λ d. result ≡ length (rule_uses d)) }
{
    match d {
        Some(d) => d.uses.len() as u64,
        None => 0,
    }
}

/// The line of the file of so many sessions, which has 81 nodes a session and 11 more.
fn judged(alloc: Global, k: u32, file: &File) -> Result<Answer, Stop>
    requires few { k ≤ 500 }
    requires file { (tree : t.File) × IsSessions k tree × StandsFor tree (meant file.now) }
    ensures ok { IfOk result (λ answer. LoadsTo k answer.status answer.output.items) }
    ensures answered { IfOk result (λ answer. IsAnswered answer.status × (answer.status ≢ Status.Usage)) }
    ensures err { OnErr result (result ≡ Err Stop.NoMemory) }
{
    one_canonical();
    let d = derive(alloc, &file.process)?;
    let nodes = 81 * k as u64 + 11;
    let output = loaded(alloc, k, nodes, rules(&d))?;
    Ok(Answer {
        status: Status::Yes,
        output,
    })
}
