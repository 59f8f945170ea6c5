// Knowledge by example.

ghost use Rattle.std.specs.Prelude.{◌≡◌, ◌+◌, ◌-◌, ◌^◌, ◌<◌, IfOk, map};
ghost use Rattle.spi_term.specs.Term.{message_size};
ghost use Rattle.spi_term.specs.View.{message};
ghost use Rattle.spi_know.specs.Numbered.{nodes_in};

use super::processes::NoMemory;
use spi_know::{Knowledge, check_cert, decide};
use spi_term::Msg;
use std::alloc::{AllocError, Global};
use std::test::Fail;

fn pair(alloc: Global, a: Msg, b: Msg) -> Result<Msg, NoMemory>
    ensures { IfOk result
        (λ m. message_size (message m) ≡ 1 + (message_size (message a) + message_size (message b))) }
{
    Msg::paired(alloc, a, b)
}

fn enc(alloc: Global, a: Msg, b: Msg) -> Result<Msg, NoMemory>
    ensures { IfOk result
        (λ m. message_size (message m) ≡ 1 + (message_size (message a) + message_size (message b))) }
{
    Msg::sealed(alloc, a, b)
}

// The ciphertext of #0 under the pair of #1 and #2.
fn locked(alloc: Global) -> Result<Msg, NoMemory>
    ensures { IfOk result (λ m. message_size (message m) ≡ 5) }
{
    let key = pair(alloc, Msg::Name(1), Msg::Name(2))?;
    enc(alloc, Msg::Name(0), key)
}

// How many lines the certificate has, where the target is known; it's accepted.
fn lines(alloc: Global, sent: &[Msg], target: &Msg) -> Result<Option<usize>, NoMemory>
    requires { nodes_in (map message sent.now) + message_size (message target.now) < 2 ^ 32 - 2 }
{
    match &decide(alloc, sent, target)? {
        Knowledge::Unknown => Ok(None),
        Knowledge::Known(cert) => {
            if check_cert(sent, cert, target) {
                Ok(Some(cert.lines.len()))
            } else {
                Err(AllocError)
            }
        }
    }
}

#[test]
fn a_compound_key_is_made(rt: HostRuntime) -> Result<(), Fail> {
    let alloc = rt.alloc();
    let sent = [locked(alloc)?, Msg::Name(2), Msg::Name(1)];
    let without = lines(alloc, &sent[..2], &Msg::Name(0))?;
    let with = lines(alloc, &sent, &Msg::Name(0))?;
    let other = lines(alloc, &sent, &Msg::Name(3))?;
    let holds = without == None && with == Some(5) && other == None;
    assert!(rt; holds, "a ciphertext under a pair");
    Ok(())
}

#[test]
fn what_is_not_used_is_left_out(rt: HostRuntime) -> Result<(), Fail> {
    let alloc = rt.alloc();
    let sent = [Msg::Name(1), Msg::Name(0)];
    let made = pair(alloc, Msg::Unit, Msg::Name(0))?;
    let hash = Msg::Hash(Box::new(alloc, Msg::Name(0))?);
    let three = lines(alloc, &sent, &made)?;
    let two = lines(alloc, &sent, &hash)?;
    let one = lines(alloc, &[], &Msg::Unit)?;
    assert!(rt; three == Some(3) && two == Some(2), "a pair and a hash");
    assert!(rt; one == Some(1), "unit");
    Ok(())
}

// The ciphertext of the name behind a name, under that name.
fn next(alloc: Global, name: u32) -> Result<Msg, NoMemory>
    requires { name < 1000 }
    ensures { IfOk result (λ m. message_size (message m) ≡ 3) }
{
    enc(alloc, Msg::Name(name + 1), Msg::Name(name))
}

#[test]
fn keys_in_the_worst_order(rt: HostRuntime) -> Result<(), Fail> {
    let alloc = rt.alloc();
    // each ciphertext has the next one's key, the last one first
    let sent = [
        next(alloc, 3)?,
        next(alloc, 2)?,
        next(alloc, 1)?,
        next(alloc, 0)?,
        Msg::Name(0),
    ];
    let without = lines(alloc, &sent[..4], &Msg::Name(4))?;
    let with = lines(alloc, &sent, &Msg::Name(4))?;
    assert!(rt; without == None && with == Some(9), "ciphertexts in a row");
    Ok(())
}
