// The command line.
use std::alloc::AllocError;
use std::rt::Env;
use std::{env, io};

/// The words of the command line without the program's name. Where one isn't UTF-8 there are none.
pub fn words(rt: &(impl Env + AllocGlobal)) -> Result<Vec<String>, AllocError> {
    let mut words = Vec::new(rt.alloc());
    match env::args(rt) {
        Ok(args) => {
            for word in args.skip(1) {
                words.push(word)?;
            }
        }
        Err(e) if e.kind() == io::ErrorKind::OutOfMemory => return Err(AllocError),
        Err(_) => {}
    }
    Ok(words)
}
