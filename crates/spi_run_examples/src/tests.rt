mod audits;
mod knowledge;
mod plays;
mod pools;
mod processes;
